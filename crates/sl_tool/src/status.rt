//! How a command and a call end.

ghost use Rattle.std.specs.Prelude.{◌≡◌};
ghost use Rattle.sl_tool.specs.Endings.{ended, ending_of};

use std::process::ExitCode;

/// How a call ended.
#[derive(Clone, Copy, Debug, PartialEq, Eq)]
pub enum Status {
    /// The whole text was written.
    Done,
    /// The specification or the image is refused; the lines say why.
    Refused,
    /// The words ask for nothing that the tool does; the usage line was written.
    Usage,
    /// A file could not be read. Nothing was written.
    ReadFault,
    /// The output could not be written whole.
    WriteFault,
    /// Memory ran out. Nothing was written, or the first bytes of the text.
    NoMemory,
    /// A run met a fault, which the last line of the text tells.
    Stopped,
}

impl Status {
    ghost use Rattle.std.specs.Prelude.{◌≡◌};
    ghost use Rattle.std.specs.Process.{exit_status};
    ghost use Rattle.sl_tool.specs.ExitNumbers.{exit_number};

    /// The exit status of the program: the variant's place, so 0 for `Done`, 1 for `Refused`, and
    /// so on.
    pub fn exit_code(self) -> ExitCode
        ensures { exit_status result ≡ exit_number self }
    {
        ExitCode::from(self as u8)
    }
}

/// How a command ended that wrote its whole text.
#[derive(Clone, Copy, Debug, PartialEq, Eq)]
pub enum Ending {
    Done,
    /// A run met a fault.
    Stopped,
}

/// The status of an ending.
pub fn ended(ending: Ending) -> Status
    ensures { result ≡ ended ending }
{
    match ending {
        Ending::Done => Status::Done,
        Ending::Stopped => Status::Stopped,
    }
}

/// The ending of a run.
pub fn ending_of(has_stopped: bool) -> Ending
    ensures { result ≡ ending_of has_stopped }
{
    if has_stopped {
        Ending::Stopped
    } else {
        Ending::Done
    }
}
