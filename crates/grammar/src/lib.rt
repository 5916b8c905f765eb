//! Grammars as data, and the law that reading by the next token is exact.
//!
//! `specs/Rules.antt` has the rules, what they derive and what begins them. A grammar over them is one value, which a
//! person compares with its EBNF, and whose texts have trees of a type of their own.
#![tactic(auto)]

pub mod laws;
