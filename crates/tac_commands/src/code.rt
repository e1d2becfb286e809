// The exit codes of the program.
ghost use Rattle.std.specs.Prelude.{◌≡◌};
ghost use Rattle.tac_commands.specs.Codes as codes;

/// The exit code of the program. This project defines the numbers.
#[derive(Clone, Copy, Debug, PartialEq, Eq)]
pub enum Code {
    /// The text of the command was written.
    Success,
    /// The words are not a command.
    Usage,
    /// A game file is refused.
    GameRefused,
    /// A read of a file failed.
    ReadFault,
    /// A write failed.
    WriteFault,
    /// The links failed, and no game was played.
    LinkFault,
    /// A tick of the played game lapsed.
    ClockFault,
    /// A memory allocation failed.
    Memory,
    /// A script, an account or a log is refused.
    TextRefused,
    /// A log is not sound.
    Unsound,
}

impl Code {
    /// The exit status of the process.
    pub fn number(&self) -> u8
        ensures { result ≡ codes.code_number self.now }
    {
        match self {
            Code::Success => 0,
            Code::Usage => 1,
            Code::GameRefused => 2,
            Code::ReadFault => 3,
            Code::WriteFault => 4,
            Code::LinkFault => 5,
            Code::ClockFault => 6,
            Code::Memory => 7,
            Code::TextRefused => 8,
            Code::Unsound => 9,
        }
    }
}
