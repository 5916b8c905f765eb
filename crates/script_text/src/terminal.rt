//! The terminals of the grammar of scripts.

/// What a token of a script is to the grammar.
#[derive(Clone, Copy, PartialEq, Eq)]
pub enum Terminal {
    /// `return`.
    Return,
    /// `trap`.
    Trap,
    /// `throw`.
    Throw,
    /// A trap code but `userN`.
    TrapCode,
    /// `userN`, a trap code, with a number of 16 bits.
    UserTrap,
    /// `tagN`, with a number that a tag may have.
    Tag,
    /// A number from 0 to 255.
    Byte,
    /// A greater number.
    Large,
    /// A number below 0.
    Negative,
    /// `(`.
    LeftParen,
    /// `)`.
    RightParen,
    /// `[`.
    LeftBracket,
    /// `]`.
    RightBracket,
    /// `,`.
    Comma,
    /// `:`.
    Colon,
    /// What stands in no script.
    Other,
}
