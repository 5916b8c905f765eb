//! The tokens of a text, as scripts have them.

ghost use Rattle.std.specs.Prelude.{◌≡◌, ◌<◌, ◌≤◌, ◌≢◌, length, map, take, Ok, IfOk, IfErr, IfSome, slice_get};
ghost use Rattle.clif_lex.specs.Lexing.{tokens_of};
ghost use Rattle.clif_lex.specs.Spelling.{AreIn};
ghost use Rattle.clif_words.specs.Seen.{seen_word};
ghost use Rattle.script_text.specs.declared.scripts.ScriptErr.TheVariants.{NoMemory};
ghost use Rattle.script_text.specs.Lexed as lexed;
ghost use Rattle.script_text.specs.Symbols as spec;

use crate::scripts::ScriptErr;
use crate::symbol::Symbol;
use crate::terminal::Terminal;
use clif_lex::{LexErr, TokenKind, Tokens, tokens};
use clif_words::{Class, Word, find_word_meaning};
use clk_num::{Bits, Width};
use std::alloc::{AllocError, Global};

/// The greatest number of a `userN`.
const MOST_USER: u64 = 65_535;

/// The greatest number of a `tagN`.
const MOST_TAG: u64 = 4_294_967_294;

/// A token of which nothing but its terminal counts.
fn make_symbol(terminal: Terminal, spot: usize) -> Symbol
    ensures { spec.lexeme_of result ≡ spec.plain terminal spot }
{
    Symbol {
        terminal,
        number: 0,
        amount: 0,
        spot,
    }
}

/// `userN`, where the number is one of a trap code.
fn make_user_trap(number: u64, spot: usize) -> Symbol
    ensures { spec.lexeme_of result ≡ spec.limited Terminal.UserTrap spec.most_user number spot }
{
    if number > MOST_USER {
        return make_symbol(Terminal::Other, spot);
    }
    Symbol {
        terminal: Terminal::UserTrap,
        number,
        amount: 0,
        spot,
    }
}

/// `tagN`, where the number is one of a tag.
fn make_tag(number: u64, spot: usize) -> Symbol
    ensures { spec.lexeme_of result ≡ spec.limited Terminal.Tag spec.most_tag number spot }
{
    if number > MOST_TAG {
        return make_symbol(Terminal::Other, spot);
    }
    Symbol {
        terminal: Terminal::Tag,
        number,
        amount: 0,
        spot,
    }
}

/// A word that CLIF has too.
fn make_clif_word(word: Word, spot: usize) -> Symbol
    ensures { spec.lexeme_of result ≡ spec.by_meaning (seen_word word) spot }
{
    match word.class() {
        Class::Return => make_symbol(Terminal::Return, spot),
        Class::Trap => make_symbol(Terminal::Trap, spot),
        Class::TrapCode => Symbol {
            terminal: Terminal::TrapCode,
            number: word.number(),
            amount: 0,
            spot,
        },
        Class::UserTrap => make_user_trap(word.number(), spot),
        Class::Tag => make_tag(word.number(), spot),
        _ => make_symbol(Terminal::Other, spot),
    }
}

/// A word.
#[tactic(auto, unfolding(crate::specs::Symbols::word))]
fn make_word(spelled: &[u8], spot: usize) -> Symbol
    ensures { spec.lexeme_of result ≡ spec.word spelled.now spot }
{
    if spelled == b"throw".as_slice() {
        make_symbol(Terminal::Throw, spot)
    } else {
        make_clif_word(find_word_meaning(spelled), spot)
    }
}

/// The terminal of a number by its size.
fn classify_number(number: i128) -> Terminal
    ensures { result ≡ spec.number_terminal number }
{
    if number < 0 {
        Terminal::Negative
    } else if number <= 255 {
        Terminal::Byte
    } else {
        Terminal::Large
    }
}

/// A number of 64 bits, with a sign or without.
#[tactic(auto, unfolding(crate::specs::Symbols::number))]
fn make_number(amount: i128, spot: usize) -> Symbol
    ensures { spec.lexeme_of result ≡ spec.number amount spot }
{
    let Some(bits) = Bits::fit(Width::W64, amount) else {
        return make_symbol(Terminal::Other, spot);
    };
    Symbol {
        terminal: classify_number(amount),
        number: bits.value() as u64,
        amount,
        spot,
    }
}

fn classify_mark(byte: u8) -> Terminal
    ensures { result ≡ spec.mark_terminal byte }
{
    match byte {
        b'(' => Terminal::LeftParen,
        b')' => Terminal::RightParen,
        b'[' => Terminal::LeftBracket,
        b']' => Terminal::RightBracket,
        b',' => Terminal::Comma,
        b':' => Terminal::Colon,
        _ => Terminal::Other,
    }
}

/// A token of the text.
fn make_symbol_at(text: &[u8], tokens: &Tokens, i: usize) -> Symbol
    requires inside { AreIn text.now tokens.now }
    requires below { i < length tokens.now }
    ensures { IfSome (slice_get tokens.now i) (λ token. spec.lexeme_of result ≡ spec.lexeme text.now token) }
{
    let token = tokens.get(i);
    let spot = token.start;
    match token.kind {
        TokenKind::Word => make_word(tokens.spelling(text, i), spot),
        TokenKind::Number => make_number(tokens.number(text, i), spot),
        TokenKind::Mark(byte) => make_symbol(classify_mark(byte), spot),
        _ => make_symbol(Terminal::Other, spot),
    }
}

/// These tokens of the text.
fn make_symbols(alloc: Global, text: &[u8], tokens: &Tokens) -> Result<Vec<Symbol>, AllocError>
    requires { AreIn text.now tokens.now }
    ensures { IfOk result (λ v. map spec.lexeme_of v.items ≡ lexed.symbols text.now tokens.now) }
{
    let mut list = Vec::new(alloc);
    'tokens: for i in 0..tokens.len() {
        list.push(make_symbol_at(text, tokens, i))?;
    }
    Ok(list)
}

/// The tokens before a place where none stands, and there one that stands in no script.
fn lex_symbols_before(alloc: Global, text: &[u8], spot: usize) -> Result<Vec<Symbol>, ScriptErr>
    requires { spot ≤ length text.now }
    ensures symbols { IfOk result (λ v. map spec.lexeme_of v.items ≡ lexed.symbols_before text.now spot) }
    ensures none { IfErr result (λ e. e ≡ NoMemory) }
{
    let front = &text[..spot];
    let mut symbols = match tokens(alloc, front) {
        Ok(tokens) => make_symbols(alloc, front, &tokens)?,
        Err(LexErr::NoMemory) => return Err(ScriptErr::NoMemory),
        Err(LexErr::BadChar(_) | LexErr::BadNumber(_)) => Vec::new(alloc),
    };
    symbols.push(make_symbol(Terminal::Other, spot))?;
    Ok(symbols)
}

/// The tokens of a text, up to the first place where none stands, and there one that stands in no script.
/// It takes time and memory in proportion to the text.
/// A text of 2^32 bytes or more is refused with NoMemory, since tokens keep their places in 32 bits.
#[tactic(auto, unfolding(crate::specs::Lexed::lexed))]
pub(crate) fn lex_symbols(alloc: Global, text: &[u8]) -> Result<Vec<Symbol>, ScriptErr>
    ensures symbols { IfOk result (λ v. map spec.lexeme_of v.items ≡ lexed.lexed text.now) }
    ensures none { IfErr result (λ e. e ≡ NoMemory) }
{
    match tokens(alloc, text) {
        Ok(tokens) => Ok(make_symbols(alloc, text, &tokens)?),
        Err(LexErr::BadChar(spot) | LexErr::BadNumber(spot)) => lex_symbols_before(
            alloc, text, spot,
        ),
        Err(LexErr::NoMemory) => Err(ScriptErr::NoMemory),
    }
}
