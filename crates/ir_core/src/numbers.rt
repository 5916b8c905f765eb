//! Typed numbers of the entities of a function. A contract sees each as a natural number.
ghost use Rattle.std.specs.Prelude.{◌≡◌, ℕ};

use std::marker::Model;

/// The number of a value: a block parameter or a result of an instruction, as in `v7`.
#[derive(Clone, Copy, PartialEq, Eq)]
pub struct Value {
    number: u32,
}

impl Model for Value {
    ghost use Rattle.std.specs.Prelude.{ℕ};

    ghost Value = { ℕ };

    ghost view = { λ a. a.number };

    ghost inverse = { λ n. record { number = n } };
}

impl Value {
    /// The entity with this number.
    #[inline]
    pub fn new(number: u32) -> Value
        ensures { result ≡ number }
    {
        Value { number }
    }

    /// Its number.
    #[inline]
    pub fn number(self) -> u32
        ensures { result ≡ self }
    {
        self.number
    }
}

/// The number of a basic block, as in `block3`.
#[derive(Clone, Copy, Debug, PartialEq, Eq)]
pub struct Block {
    number: u32,
}

impl Model for Block {
    ghost use Rattle.std.specs.Prelude.{ℕ};

    ghost Value = { ℕ };

    ghost view = { λ a. a.number };

    ghost inverse = { λ n. record { number = n } };
}

impl Block {
    /// The entity with this number.
    #[inline]
    pub fn new(number: u32) -> Block
        ensures { result ≡ number }
    {
        Block { number }
    }

    /// Its number.
    #[inline]
    pub fn number(self) -> u32
        ensures { result ≡ self }
    {
        self.number
    }
}

/// The number of an explicit stack slot, as in `ss0`.
#[derive(Clone, Copy, PartialEq, Eq)]
pub struct Slot {
    number: u32,
}

impl Model for Slot {
    ghost use Rattle.std.specs.Prelude.{ℕ};

    ghost Value = { ℕ };

    ghost view = { λ a. a.number };

    ghost inverse = { λ n. record { number = n } };
}

impl Slot {
    /// The entity with this number.
    #[inline]
    pub fn new(number: u32) -> Slot
        ensures { result ≡ number }
    {
        Slot { number }
    }

    /// Its number.
    #[inline]
    pub fn number(self) -> u32
        ensures { result ≡ self }
    {
        self.number
    }
}

/// The number of a signature of the function's list, as in `sig0`.
#[derive(Clone, Copy, PartialEq, Eq)]
pub struct SigRef {
    number: u32,
}

impl Model for SigRef {
    ghost use Rattle.std.specs.Prelude.{ℕ};

    ghost Value = { ℕ };

    ghost view = { λ a. a.number };

    ghost inverse = { λ n. record { number = n } };
}

impl SigRef {
    /// The entity with this number.
    #[inline]
    pub fn new(number: u32) -> SigRef
        ensures { result ≡ number }
    {
        SigRef { number }
    }

    /// Its number.
    #[inline]
    pub fn number(self) -> u32
        ensures { result ≡ self }
    {
        self.number
    }
}

/// The number of a callee declaration, as in `fn0`.
#[derive(Clone, Copy, PartialEq, Eq)]
pub struct FuncRef {
    number: u32,
}

impl Model for FuncRef {
    ghost use Rattle.std.specs.Prelude.{ℕ};

    ghost Value = { ℕ };

    ghost view = { λ a. a.number };

    ghost inverse = { λ n. record { number = n } };
}

impl FuncRef {
    /// The entity with this number.
    #[inline]
    pub fn new(number: u32) -> FuncRef
        ensures { result ≡ number }
    {
        FuncRef { number }
    }

    /// Its number.
    #[inline]
    pub fn number(self) -> u32
        ensures { result ≡ self }
    {
        self.number
    }
}
