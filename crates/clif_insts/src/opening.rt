//! What stands before an instruction, and the words that its place refuses.

ghost use Rattle.std.specs.Prelude.{◌≡◌, ◌==◌};
ghost use Rattle.grammar.specs.Rules.{member};
ghost use Rattle.clif_words.specs.Classes.{code};
ghost use Rattle.clif_words.specs.Terminals.{codes_of, words};
ghost use Rattle.clif_insts.specs.Grammar.{excepted, words_but};

use clif_words::Class;

/// What stands before an instruction. By that a word which is no opcode may begin something else in its place.
#[derive(Clone, Copy, PartialEq, Eq)]
pub enum Opening {
    /// Results and `=`: nothing but an opcode goes on.
    AfterResults,
    /// Tags, or a source location: results may begin, with a value.
    AfterTags,
    /// The line before: results or the head of the next block may begin.
    LineStart,
}

/// Whether the class is that of words that are no opcodes.
#[inline]
fn is_word(class: Class) -> bool
    ensures { result ≡ member (code class) (codes_of words) }
{
    Class::Function as u8 <= class as u8 && class as u8 <= Class::Other as u8
}

/// Whether the two are the same class.
#[inline]
fn is(first: Class, second: Class) -> bool
    ensures { result ≡ (code first == code second) }
{
    first as u8 == second as u8
}

impl Opening {
    /// Whether a word of this class may begin something else there.
    #[inline]
    fn excepts(self, class: Class) -> bool
        ensures { result ≡ member (code class) (codes_of (excepted self)) }
    {
        match self {
            Opening::AfterResults => false,
            Opening::AfterTags => is(Class::Value, class),
            Opening::LineStart => is(Class::Value, class) || is(Class::Block, class),
        }
    }

    /// Whether a word of this class is an unknown opcode there.
    #[inline]
    pub fn refuses(self, class: Class) -> bool
        ensures { result ≡ member (code class) (words_but (excepted self)) }
    {
        !self.excepts(class) && is_word(class)
    }
}
