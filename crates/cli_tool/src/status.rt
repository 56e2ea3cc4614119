//! How a run ends.
ghost use Rattle.std.specs.Prelude.{◌≡◌};

/// How a run ends; the program exits with its code.
#[derive(Clone, Copy, Debug, PartialEq, Eq)]
pub enum Status {
    /// The command was done, and its report was written.
    Done,
    /// The command was done, and its answer is no: `exec` met undefined behaviour.
    Negative,
    /// The words are no command, or no function of the texts with its arguments.
    Usage,
    /// A text was refused, and the report says why.
    Refused,
    /// A file could not be read or written; nothing was reported.
    FileFault,
    /// The report could not be written.
    OutFault,
    /// Memory ran out; nothing was written.
    NoMemory,
}

impl Status {
    ghost use Rattle.cli_tool.specs.Status.{code_of};

    /// The exit status of the program.
    pub fn code(&self) -> u8
        ensures { result ≡ code_of self.now }
    {
        match self {
            Status::Done => 0,
            Status::Negative => 1,
            Status::Usage => 2,
            Status::Refused => 3,
            Status::FileFault => 4,
            Status::OutFault => 5,
            Status::NoMemory => 6,
        }
    }
}
