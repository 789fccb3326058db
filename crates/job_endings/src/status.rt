ghost use Rattle.std.specs.Prelude.{◌≡◌};
ghost use Rattle.job_endings.specs.StatusNumber.{number_of};

/// How a job ended.
#[derive(Clone, Copy, Debug, PartialEq, Eq)]
pub enum Status {
    /// The output is whole.
    Ok,
    /// Memory ran out, and nothing was written.
    NoMemory,
    /// The words are no job.
    Usage,
    /// A file could not be read.
    Unread,
    /// The output could not be written whole.
    Unwritten,
    /// The source was refused.
    SourceRefused,
    /// The input was refused.
    InputRefused,
    /// The faults or the schedule were refused.
    PlanRefused,
    /// The run trapped.
    Trap,
    /// No integer explains a shown word.
    Damage,
    /// The limit was reached.
    Spent,
    /// The object or the assembly was refused.
    ObjectRefused,
    /// The script was refused.
    ScriptRefused,
    /// A file is longer than the limit.
    TooLong,
}

impl Status {
    /// The program's exit status, 0 to 13.
    pub fn number(self) -> u8
        ensures { result ≡ number_of self }
    {
        self as u8
    }
}
