//! The tokens of a text, read one after the other.

ghost use Rattle.std.specs.Prelude.{◌≡◌, ◌≢◌, ℕ, not, List, ◌∷◌, [], ◌<◌, ◌≤◌, length, take, drop, slice_get};
ghost use Rattle.std.specs.Prelude.{slice_range, true, false, IfOk, IfErr, IfSome};
ghost use Rattle.grammar.specs.Rules.{Lexeme, heads, heads_any};
ghost use Rattle.clif_lex.specs.Spelling.{AreIn};
ghost use Rattle.clif_words.specs.Classes.{code};
ghost use Rattle.clif_words.specs.Lexemes.{lexemes};
ghost use Rattle.clif_words.specs.Seen.{seen};
ghost use Rattle.clif_words.specs.Words.{word_meaning};
ghost use Rattle.clif_words.specs.TextTokens.{is_form};
ghost use Rattle.token_reader.specs.declared.stop.Stop.TheVariants.{NoMemory};
ghost use Rattle.token_reader.specs.Names as names;
ghost use Rattle.token_reader.specs.Next.{is_among, Tells};
ghost use Rattle.token_reader.specs.Next as next;
ghost use Rattle.token_reader.specs.Reading as spec;
ghost use Rattle.token_reader.specs.Reading.{Gives, same};
ghost use Rattle.token_reader.specs.Shown.{IsOf, Shows};

use crate::kinds::{is_comment, is_number, parse_number, strip_mark};
use crate::raw::{RawName, RawNumber, RawOpcode, RawText};
use crate::stop::Stop;
use clif_lex::{TokenKind, Tokens};
use clif_words::{Class, Terminal, Word, find_word_meaning, match_quick_terminal};
use ir_core::NameBytes;
use std::alloc::Global;
use std::marker::Model;

/// The next token. Where none is left, only its place says anything.
#[derive(Clone, Copy)]
pub(crate) struct Next {
    /// Its place in the list, or where the reader ends.
    at: usize,
    /// The class of its terminal, which is asked most.
    class: Class,
    pub(crate) terminal: Terminal,
    /// Its first byte.
    spot: usize,
}

/// The tokens that are still to be read. Comments are passed over.
/// Contracts see the tokens as the grammar does.
#[derive(Drop)]
pub struct Reader<'a> {
    text: &'a [u8],
    tokens: &'a Tokens,
    /// The place in the list before which the reader ends.
    end: usize,
    next: Next,
}

impl<'a> Model for Reader<'a> {
    ghost use Rattle.std.specs.Prelude.{List, take, drop, ◌≤◌, length};
    ghost use Rattle.grammar.specs.Rules.{Lexeme};
    ghost use Rattle.clif_lex.specs.Spelling.{AreIn};
    ghost use Rattle.clif_words.specs.Lexemes.{lexemes};
    ghost use Rattle.token_reader.specs.Shown.{Shows};

    ghost Value = { List Lexeme };

    ghost view = { λ r. lexemes r.text.now (drop r.next.at (take r.«end» r.tokens.now)) };

    ghost invariant = { λ r. AreIn r.text.now r.tokens.now × (r.next.at ≤ r.«end») × (r.«end» ≤ length r.tokens.now)
        × Shows r.text.now (drop r.next.at (take r.«end» r.tokens.now)) r.next };
}

/// Keeps what a word is.
#[inline(never)]
fn keep_word(next: &mut Next, spelling: &[u8])
    ensures at { next.new.at ≡ next.old.at }
    ensures spot { next.new.spot ≡ next.old.spot }
    ensures terminal { seen next.new.terminal ≡ word_meaning spelling.now }
    ensures class { next.new.class ≡ (seen next.new.terminal).class }
{
    let word = find_word_meaning(spelling);
    next.class = word.class();
    next.terminal = Terminal::Word(word);
}

/// Keeps what a word is. Values, the most of the words, are told here.
#[inline(never)]
fn keep_any_word(next: &mut Next, spelling: &[u8])
    ensures at { next.new.at ≡ next.old.at }
    ensures spot { next.new.spot ≡ next.old.spot }
    ensures terminal { seen next.new.terminal ≡ word_meaning spelling.now }
    ensures class { next.new.class ≡ (seen next.new.terminal).class }
{
    let may_be_value = match spelling.first() {
        Some(byte) => *byte == b'v',
        None => false,
    };
    if !may_be_value {
        keep_word(next, spelling);
        return;
    }
    match match_quick_terminal(TokenKind::Word, spelling) {
        Some((class, terminal)) => {
            next.class = class;
            next.terminal = terminal;
        }
        None => keep_word(next, spelling),
    }
}

/// Keeps what the token at a place of the list is.
#[inline]
fn keep(next: &mut Next, text: &[u8], tokens: &Tokens, at: usize)
    requires inside { AreIn text.now tokens.now }
    requires below { at < length tokens.now }
    ensures at { next.new.at ≡ at }
    ensures token { IfSome (slice_get tokens.now at) (λ token. IsOf text.now token next.new) }
{
    let token = tokens.get(at);
    let spelling = tokens.spelling(text, at);
    next.at = at;
    next.spot = token.start;
    if let TokenKind::Word = token.kind {
        keep_any_word(next, spelling);
        return;
    }
    match match_quick_terminal(token.kind, spelling) {
        Some((class, terminal)) => {
            next.class = class;
            next.terminal = terminal;
        }
        None => keep_word(next, spelling),
    }
}

/// Goes on to the first token from a place on and before the end that is no comment.
fn find(next: &mut Next, text: &[u8], tokens: &Tokens, from: usize, end: usize)
    requires inside { AreIn text.now tokens.now }
    requires ordered { from ≤ «end» }
    requires within { «end» ≤ length tokens.now }
    ensures within { next.new.at ≤ «end» }
    ensures same { lexemes text.now (drop next.new.at (take «end» tokens.now))
        ≡ lexemes text.now (drop from (take «end» tokens.now)) }
    ensures shows { Shows text.now (drop next.new.at (take «end» tokens.now)) next.new }
{
    let mut at = from;
    'comments: while at < end {
        if !is_comment(tokens.get(at).kind) {
            keep(next, text, tokens, at);
            return;
        }
        at += 1;
    }
    next.at = at;
}

impl<'a> Reader<'a> {
    /// The tokens of a text from a place of their list on.
    pub fn new(text: &'a [u8], tokens: &'a Tokens, from: usize) -> Self
        requires inside { AreIn text.now tokens.now }
        requires within { from ≤ length tokens.now }
        ensures { result ≡ lexemes text.now (drop from tokens.now) }
    {
        Reader::between(text, tokens, from, tokens.len())
    }

    /// The tokens of a text from a place of their list on and before another.
    pub fn between(text: &'a [u8], tokens: &'a Tokens, from: usize, end: usize) -> Self
        requires inside { AreIn text.now tokens.now }
        requires ordered { from ≤ «end» }
        requires within { «end» ≤ length tokens.now }
        ensures { result ≡ lexemes text.now (slice_range tokens.now from «end») }
    {
        let mut next = Next {
            at: end,
            class: Class::Other,
            terminal: Terminal::Other,
            spot: 0,
        };
        find(&mut next, text, tokens, from, end);
        Reader {
            text,
            tokens,
            end,
            next,
        }
    }

    /// A second reader of the tokens that are still to be read.
    #[inline]
    pub fn fork(&self) -> Reader<'a>
        ensures { result ≡ self.now }
    {
        Reader {
            text: self.text,
            tokens: self.tokens,
            end: self.end,
            next: self.next,
        }
    }

    /// Whether a token is left.
    #[inline]
    fn is_left(&self) -> bool
        ensures { result ≡ heads_any self.now }
    {
        self.next.at < self.end
    }

    /// Whether the next token is of this class.
    #[inline]
    pub fn next_is(&self, class: Class) -> bool
        ensures { result ≡ spec.next_is class self.now }
    {
        self.is_left() && class as u8 == self.next.class as u8
    }

    /// Whether the next token is of one of these classes.
    #[inline]
    pub fn next_is_either(&self, first: Class, second: Class) -> bool
        ensures { result ≡ heads (code first ∷ code second ∷ []) self.now }
    {
        self.next_is(first) || self.next_is(second)
    }

    /// Whether the next token is of one of these classes.
    #[inline]
    pub fn next_is_one_of(&self, first: Class, second: Class, third: Class) -> bool
        ensures { result ≡ heads (code first ∷ code second ∷ code third ∷ []) self.now }
    {
        self.next_is(first) || self.next_is_either(second, third)
    }

    /// The class of the next token, if there is one.
    #[inline]
    pub fn next_class(&self) -> Option<Class>
        ensures { (codes : List ℕ) → is_among result codes ≡ heads codes self.now }
    {
        if self.is_left() {
            Some(self.next.class)
        } else {
            None
        }
    }

    /// What the next token is, if there is one.
    #[inline]
    pub fn next_terminal(&self) -> Option<Terminal>
        ensures { Tells result self.now }
    {
        if self.is_left() {
            Some(self.next.terminal)
        } else {
            None
        }
    }

    /// Whether no token is left.
    #[inline]
    pub fn is_at_end(&self) -> bool
        ensures { result ≡ not (heads_any self.now) }
    {
        !self.is_left()
    }

    /// The first byte of the next token, or this end where there is none.
    pub fn spot_or(&self, end: usize) -> usize
        ensures { result ≡ next.spot_or end self.now }
    {
        if self.is_left() { self.next.spot } else { end }
    }

    /// The name that the next token spells.
    #[inline]
    fn peek_name(&self) -> RawName
        requires { self.now ≢ [] }
        ensures { (x : Lexeme) (xs : List Lexeme) → self.now ≡ x ∷ xs → result ≡ spec.name x }
    {
        RawName {
            number: parse_number(&self.next),
            spot: self.next.spot,
        }
    }

    /// What the next token spells as a number, or 0 where it is none.
    #[inline]
    fn peek_amount(&self) -> i128
        requires { self.now ≢ [] }
        ensures { (x : Lexeme) (xs : List Lexeme) → self.now ≡ x ∷ xs → result ≡ x.amount }
    {
        let token = self.tokens.get(self.next.at);
        if is_number(token.kind) {
            self.tokens.number(self.text, self.next.at)
        } else {
            0
        }
    }

    /// The number that the next token spells.
    #[inline]
    fn peek_number(&self) -> RawNumber
        requires { self.now ≢ [] }
        ensures { (x : Lexeme) (xs : List Lexeme) → self.now ≡ x ∷ xs → result ≡ spec.amount x }
    {
        let value = self.peek_amount();
        let spot = self.peek_name().spot;
        RawNumber { value, spot }
    }

    /// What the next token spells as a name.
    fn peek_text(&self, alloc: Global) -> Result<RawText, Stop>
        requires { self.now ≢ [] }
        ensures some { (x : Lexeme) (xs : List Lexeme) → self.now ≡ x ∷ xs → IfOk result (λ r. r ≡ names.text x) }
        ensures none { IfErr result (λ e. e ≡ NoMemory) }
    {
        let token = self.tokens.get(self.next.at);
        let bytes = strip_mark(token.kind, self.tokens.spelling(self.text, self.next.at));
        Ok(RawText {
            bytes: NameBytes::from_slice(alloc, bytes)?,
            spot: token.start,
        })
    }

    /// Passes over the next token.
    #[inline]
    pub fn advance(&mut self)
        requires { self.old ≢ [] }
        ensures { self.new ≡ drop 1 self.old }
    {
        let behind = self.next.at + 1;
        find(&mut self.next, self.text, self.tokens, behind, self.end);
    }

    /// The name that a token of this class spells.
    #[inline]
    pub fn take(&mut self, class: Class) -> Result<RawName, Stop>
        ensures is { Gives same self.new result (spec.name_at class self.old) }
        ensures no_memory { IfErr result (λ e. e ≢ NoMemory) }
        ensures shorter { IfOk result (λ _. length self.new < length self.old) }
    {
        if self.next_is(class) {
            let name = self.peek_name();
            self.advance();
            Ok(name)
        } else {
            Err(Stop::Syntax)
        }
    }

    /// The opcode that a token of this class, the class of a form, is.
    #[inline]
    pub fn take_opcode(&mut self, class: Class) -> Result<RawOpcode, Stop>
        requires form { is_form (code class) ≡ true }
        ensures is { Gives same self.new result (spec.opcode_at class self.old) }
        ensures no_memory { IfErr result (λ e. e ≢ NoMemory) }
        ensures shorter { IfOk result (λ _. length self.new < length self.old) }
    {
        if !self.next_is(class) {
            return Err(Stop::Syntax);
        }
        match self.next_terminal() {
            Some(Terminal::Word(Word::Opcode(kind))) => {
                let spot = self.next.spot;
                self.advance();
                Ok(RawOpcode { kind, spot })
            }
            _ => Err(Stop::Syntax),
        }
    }

    /// The number that a token of this class spells.
    #[inline]
    pub fn take_number(&mut self, class: Class) -> Result<RawNumber, Stop>
        ensures is { Gives same self.new result (spec.amount_at class self.old) }
        ensures no_memory { IfErr result (λ e. e ≢ NoMemory) }
        ensures shorter { IfOk result (λ _. length self.new < length self.old) }
    {
        if self.next_is(class) {
            let number = self.peek_number();
            self.advance();
            Ok(number)
        } else {
            Err(Stop::Syntax)
        }
    }

    /// What a name token of this class spells. It takes the memory that the bytes need.
    pub fn take_text(&mut self, alloc: Global, class: Class) -> Result<RawText, Stop>
        ensures is { Gives same self.new result (names.text_at class self.old) }
        ensures shorter { IfOk result (λ _. length self.new < length self.old) }
    {
        if self.next_is(class) {
            let text = self.peek_text(alloc)?;
            self.advance();
            Ok(text)
        } else {
            Err(Stop::Syntax)
        }
    }
}
