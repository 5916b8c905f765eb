//! What a command line may ask for.
ghost use Rattle.std.specs.Prelude.{◌≤◌};

/// The command that the words name, with the values of its options.
#[derive(Drop)]
pub enum Settings {
    /// `check`: whether the module is accepted.
    Check,
    /// `print`: the canonical text of the module.
    Print,
    /// `inline`: the canonical text of the module after the pass.
    Inline(InlineSettings),
    /// `run`: what a run of a function does.
    Run(RunSettings),
    /// `gen`: what the pass does to a generated module, or the text of that module.
    Gen(GenSettings),
    /// `test`: what comes of the tests that stand in the text.
    Test,
}

/// The options of `inline`.
#[derive(Clone, Copy)]
pub struct InlineSettings {
    /// The largest size of a callee that is inlined.
    pub callee_size: usize,
    /// The largest size that a caller may grow to.
    pub caller_size: usize,
    /// How many workers share the job.
    pub workers: usize,
    pub ghost callee_size_in_range: { callee_size ≤ 262144 },
    pub ghost caller_size_in_range: { caller_size ≤ 262144 },
    pub ghost some_workers: { 1 ≤ workers },
    pub ghost few_workers: { workers ≤ 64 },
}

/// The options of `run`.
#[derive(Drop)]
pub struct RunSettings {
    /// The name of the function that is run, as the canonical text spells it.
    pub entry: String,
    /// The arguments, or nothing.
    pub args: String,
    /// What the host answers, or nothing.
    pub script: String,
    /// The size of the memory in bytes.
    pub memory: usize,
    /// How many steps the run may take.
    pub steps: u64,
    pub ghost memory_in_range: { memory ≤ 16777216 },
    pub ghost steps_in_range: { steps ≤ 1000000000 },
}

/// The options of `gen`.
#[derive(Clone, Copy)]
pub struct GenSettings {
    /// The number from which the module is made.
    pub number: u64,
    /// How many functions the module has.
    pub functions: u32,
    /// Whether the text of the module is asked for.
    pub text: bool,
    /// The options of the pass.
    pub pass: InlineSettings,
    pub ghost some_functions: { 1 ≤ functions },
    pub ghost few_functions: { functions ≤ 20000 },
}
