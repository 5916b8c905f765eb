//! What tokens are to the grammar.

ghost use Rattle.std.specs.Prelude.{◌≡◌, ◌+◌, ◌==◌, ◌&&◌, ◌||◌, not, ◌<◌, ◌≤◌, ◌^◌, List, [], ◌∷◌, length, take, drop};
ghost use Rattle.std.specs.Prelude.{slice_get, option_map, IfSome, map};
ghost use Rattle.clif_lex.specs.Bytes.{first, is_sign};
ghost use Rattle.clif_lex.specs.declared.spans.TokenKind.TheVariants as kinds;
ghost use Rattle.clif_words.specs.declared.class.Class.TheVariants.{Value};
ghost use Rattle.clif_words.specs.Seen.{seen, seen_word, entity_class, opcode_row, word_row, stem_row};
ghost use Rattle.clif_words.specs.Table as table;
ghost use Rattle.clif_words.specs.Words as words;
ghost use Rattle.clif_words.specs.Lexemes as spec;

use crate::class::Class;
use crate::meanings::{Entity, Terminal, Word};
use crate::opcodes::{OpcodeRow, list_opcode_rows};
use crate::words::*;
use clif_lex::{TokenKind, digit, digit_run};
use ir_core::are_same_bytes;

/// The byte at the front, or 0 in an empty text.
#[inline]
fn get_first_byte(text: &[u8]) -> u8
    ensures { result ≡ first text.now }
{
    match text.first() {
        Some(byte) => *byte,
        None => 0,
    }
}

/// What the word is, if the row has it.
#[inline]
fn match_row(row: &Entry, word: &[u8]) -> Option<Word>
    ensures { option_map seen_word result ≡ words.look_up (word_row row.now ∷ []) word.now }
{
    if are_same_bytes(row.0.as_bytes(), word) {
        Some(row.1)
    } else {
        None
    }
}

/// What the first row of the table that has the word says that it is.
#[inline]
fn look_up(table: &[Entry], word: &[u8]) -> Option<Word>
    ensures { option_map seen_word result ≡ words.look_up (map word_row table.now) word.now }
{
    for row in table {
        if are_same_bytes(row.0.as_bytes(), word) {
            return Some(row.1);
        }
    }
    None
}

/// What the word is, if the row at this place has it.
#[inline]
fn match_entry(entries: &[Entry], place: usize, word: &[u8]) -> Option<Word>
    requires { place < length entries.now }
    ensures { option_map seen_word result ≡ words.look_up (take 1 (drop place (map word_row entries.now))) word.now }
{
    match_row(&entries[place], word)
}

/// The opcode that the word is, if the row has it.
#[inline]
fn match_opcode_row(row: &OpcodeRow, word: &[u8]) -> Option<Word>
    ensures { option_map seen_word result ≡ words.look_up (opcode_row row.now ∷ []) word.now }
{
    if are_same_bytes(row.0.as_bytes(), word) {
        Some(Word::Opcode(row.1))
    } else {
        None
    }
}

/// The opcode that the word is, if the row at this place has it.
#[inline]
fn match_opcode(opcodes: &[OpcodeRow], place: usize, word: &[u8]) -> Option<Word>
    requires { place < length opcodes.now }
    ensures { option_map seen_word result ≡ words.look_up (take 1 (drop place (map opcode_row opcodes.now))) word.now }
{
    match_opcode_row(&opcodes[place], word)
}

/// What the word is, if the row with this number has it: the opcodes come first, behind them the other words.
#[inline]
fn match_word(number: usize, word: &[u8]) -> Option<Word>
    requires { number < length table.all_words }
    ensures { option_map seen_word result ≡ words.look_up (take 1 (drop number table.all_words)) word.now }
{
    let opcodes = list_opcode_rows();
    if number < opcodes.len() {
        match_opcode(opcodes, number, word)
    } else {
        match_entry(&WORDS, number - opcodes.len(), word)
    }
}

/// The number of a row, where no row but this and the next one may have the word.
/// `bench/word_places.py` makes the tables for it.
#[inline]
fn find_row(word: &[u8]) -> usize
    requires { 2 ≤ length word.now }
    ensures within { result + 1 < length table.all_words }
    ensures only { words.look_up table.all_words word.now
        ≡ words.look_up (take 2 (drop result table.all_words)) word.now }
{
    let begin = word[0] as usize * 32 + word[1] as usize * 127;
    let sum = begin + word[word.len() - 1] as usize + word.len() % 32 * 3;
    let shift = SHIFTS[sum % 64] as usize;
    PLACES[(sum / 64 + shift) % 256] as usize
}

/// What a word is that stands in the tables.
#[inline(always)]
fn find_word(word: &[u8]) -> Option<Word>
    ensures { option_map seen_word result ≡ words.look_up table.all_words word.now }
{
    if word.len() < 2 {
        return None;
    }
    let number = find_row(word);
    match match_word(number, word) {
        Some(found) => Some(found),
        None => match_word(number + 1, word),
    }
}

#[tactic(auto, unfolding(crate::specs::Words::entity_number))]
/// The number that digits write, or `u64::MAX` where it is above that.
fn parse_entity_number(digits: &[u8]) -> u64
    ensures { result ≡ words.entity_number digits.now }
{
    let mut number: u64 = 0;
    for c in digits {
        let next = u128::from(number) * 10 + u128::from(digit(*c));
        if next > u64::MAX as u128 {
            return u64::MAX;
        }
        number = next as u64;
    }
    number
}

/// Whether digits have no superfluous leading zero.
#[inline]
fn is_plain(digits: &[u8]) -> bool
    ensures { result ≡ words.is_plain digits.now }
{
    get_first_byte(digits) != b'0' || digits.len() == 1
}

/// How many digits stand at the end.
#[inline]
fn count_digits(word: &[u8]) -> usize
    ensures len { result ≡ words.digits_len word.now }
    ensures within { result ≤ length word.now }
{
    word.iter().rev().take_while(|c| c.is_ascii_digit()).count()
}

fn is_digits_x(text: &[u8]) -> bool
    ensures { result ≡ words.is_digits_x text.now }
{
    let count = digit_run(text);
    count != 0 && text.split_at(count).1 == b"x".as_slice()
}

/// Whether a vector's type stands before its last digits.
#[tactic(auto, unfolding(crate::specs::Words::is_lanes))]
fn is_lanes(stem: &[u8]) -> bool
    ensures { result ≡ words.is_lanes stem.now }
{
    match stem.split_first() {
        None => false,
        Some((letter, rest)) => (*letter == b'i' || *letter == b'f') && is_digits_x(rest),
    }
}

/// What the first row of the table that has the stem says that its words name.
fn find_entity_in(table: &[Stem], stem: &[u8]) -> Option<Entity>
    ensures { option_map (λ e. words.means (entity_class e) 0) result
        ≡ words.look_up (map stem_row table.now) stem.now }
{
    for row in table {
        if are_same_bytes(row.0.as_bytes(), stem) {
            return Some(row.1);
        }
    }
    None
}

/// What the words name that a number makes of the stem.
fn find_entity(stem: &[u8]) -> Option<Entity>
    ensures { option_map (λ e. words.means (entity_class e) 0) result ≡ words.look_up words.stems stem.now }
{
    find_entity_in(&STEMS, stem)
}

/// Whether the stem and a number begin another declaration.
fn is_refused(stem: &[u8]) -> bool
    ensures { result ≡ words.is_refused stem.now }
{
    look_up(&REFUSED_STEMS, stem).is_some()
}

/// What a word with a number behind it is.
#[tactic(auto, unfolding(crate::specs::Words::numbered_meaning))]
fn parse_numbered_word(word: &[u8]) -> Word
    ensures { seen_word result ≡ words.numbered_meaning word.now }
{
    let count = count_digits(word);
    if count == 0 {
        return Word::Other;
    }
    let (stem, digits) = word.split_at(word.len() - count);
    if let Some(entity) = find_entity(stem) {
        return if is_plain(digits) {
            Word::Entity(entity, parse_entity_number(digits))
        } else {
            Word::Other
        };
    }
    if is_refused(stem) {
        Word::RefusedDecl
    } else if is_lanes(stem) {
        Word::RefusedType
    } else {
        Word::Other
    }
}

/// The number of the value whose name is `v` and these digits, if they are at most 19.
#[inline]
fn parse_value_number(digits: &[u8]) -> Option<u64>
    ensures { IfSome result (λ number. words.word_meaning (118 ∷ digits.now) ≡ words.means Value number) }
{
    if digits.is_empty() || digits.len() > 19 || !is_plain(digits) {
        return None;
    }
    let mut number: u64 = 0;
    for c in digits {
        if !c.is_ascii_digit() {
            return None;
        }
        number = number * 10 + u64::from(*c - b'0');
    }
    Some(number)
}

/// The number of the value that a word names, if it has at most 19 digits.
#[inline]
fn parse_value(word: &[u8]) -> Option<u64>
    ensures { IfSome result (λ number. words.word_meaning word.now ≡ words.means Value number) }
{
    match word.split_first() {
        Some((letter, digits)) if *letter == b'v' => parse_value_number(digits),
        _ => None,
    }
}

/// What a word is to the grammar.
#[inline(always)]
#[tactic(auto, unfolding(crate::specs::Words::word_meaning))]
pub fn find_word_meaning(word: &[u8]) -> Word
    ensures { seen_word result ≡ words.word_meaning word.now }
{
    match find_word(word) {
        Some(found) => found,
        None => parse_numbered_word(word),
    }
}

/// The class of a mark, and what it is.
#[inline(always)]
fn classify_mark(byte: u8) -> (Class, Terminal)
    ensures { (seen result.1 ≡ words.means (spec.mark_class byte) 0) × (result.0 ≡ spec.mark_class byte) }
{
    match byte {
        b'(' => (Class::LeftParen, Terminal::LeftParen),
        b')' => (Class::RightParen, Terminal::RightParen),
        b'{' => (Class::LeftBrace, Terminal::LeftBrace),
        b'}' => (Class::RightBrace, Terminal::RightBrace),
        b'[' => (Class::LeftBracket, Terminal::LeftBracket),
        b']' => (Class::RightBracket, Terminal::RightBracket),
        b',' => (Class::Comma, Terminal::Comma),
        b':' => (Class::Colon, Terminal::Colon),
        b'=' => (Class::Equals, Terminal::Equals),
        b'.' => (Class::Dot, Terminal::Dot),
        b'<' => (Class::Less, Terminal::Less),
        b'>' => (Class::Greater, Terminal::Greater),
        _ => (Class::Other, Terminal::Other),
    }
}

/// The class of a number, and what it is.
#[inline(always)]
fn classify_number(spelling: &[u8]) -> (Class, Terminal)
    ensures { (seen result.1 ≡ words.means (spec.number_class spelling.now) 0)
        × (result.0 ≡ spec.number_class spelling.now) }
{
    match get_first_byte(spelling) {
        b'+' | b'-' => (Class::Signed, Terminal::Signed),
        _ => (Class::Unsigned, Terminal::Unsigned),
    }
}

/// The class of a token with this spelling, and what it is, where no search tells it. Nothing is given for words alone,
/// and for which of them is not promised: values of few digits are told.
#[inline(always)]
pub fn match_quick_terminal(kind: TokenKind, spelling: &[u8]) -> Option<(Class, Terminal)>
    ensures is { IfSome result (λ found. (seen found.1 ≡ spec.meaning_of kind spelling.now)
        × (found.0 ≡ (seen found.1).class)) }
    ensures word { result ≡ None → kind ≡ kinds.Word }
{
    match kind {
        TokenKind::Word => match parse_value(spelling) {
            Some(number) => Some((
                Class::Value,
                Terminal::Word(Word::Entity(Entity::Value, number)),
            )),
            None => None,
        },
        TokenKind::Mark(byte) => Some(classify_mark(byte)),
        TokenKind::Number => Some(classify_number(spelling)),
        TokenKind::Header => Some((Class::Header, Terminal::Header)),
        TokenKind::Comment => Some((Class::Other, Terminal::Other)),
        TokenKind::Name => Some((Class::Name, Terminal::Name)),
        TokenKind::Srcloc => Some((Class::Srcloc, Terminal::Srcloc)),
        TokenKind::Arrow => Some((Class::Arrow, Terminal::Arrow)),
    }
}
