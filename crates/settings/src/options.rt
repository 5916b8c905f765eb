//! The options of the commands, each once: the command table has them, and what was found is read by them.

/// An option whose value is a number from `least` to `most`.
#[derive(Clone, Copy)]
pub(crate) struct NumberOption {
    pub name: &'static str,
    pub least: u64,
    pub most: u64,
}

/// The largest size of a body that is inlined.
pub(crate) const CALLEE_SIZE: NumberOption = NumberOption {
    name: "callee-size",
    least: 0,
    most: 262_144,
};

/// The largest size that a function may have then.
pub(crate) const CALLER_SIZE: NumberOption = NumberOption {
    name: "caller-size",
    least: 0,
    most: 262_144,
};

/// How many workers share the job.
pub(crate) const WORKERS: NumberOption = NumberOption {
    name: "workers",
    least: 1,
    most: 64,
};

/// How many bytes the memory has.
pub(crate) const MEMORY: NumberOption = NumberOption {
    name: "memory",
    least: 0,
    most: 16_777_216,
};

/// The most instructions that are run.
pub(crate) const STEPS: NumberOption = NumberOption {
    name: "steps",
    least: 0,
    most: 1_000_000_000,
};

/// The number that a module is made from.
pub(crate) const NUMBER: NumberOption = NumberOption {
    name: "number",
    least: 0,
    most: u64::MAX,
};

/// How many functions that module has.
pub(crate) const FUNCTIONS: NumberOption = NumberOption {
    name: "functions",
    least: 1,
    most: 20_000,
};

/// The name of the function that is run.
pub(crate) const ENTRY: &str = "entry";

/// The numbers for its parameters.
pub(crate) const ARGS: &str = "args";

/// The replies of host functions.
pub(crate) const SCRIPT: &str = "script";

/// Whether the text of the module is written.
pub(crate) const TEXT: &str = "text";
