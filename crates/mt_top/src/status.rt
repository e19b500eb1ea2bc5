ghost use Rattle.std.specs.Prelude.{◌≡◌};
ghost use Rattle.mt_top.specs.Status.{exit_status};
ghost use Rattle.mt_top.specs.Private.Status.{is_done, status_of};

use mt_lines::Ending;

/// How a run ended, and so the program's exit status.
#[derive(Clone, Copy, Debug, PartialEq, Eq)]
pub enum Status {
    /// What the words ask for was done: the input was read to its end, and each line was answered; or the large input was run; or all links
    /// were served.
    Done,
    /// The words are no command.
    Usage,
    /// The input ended before a picture had begun that links could be served over.
    Setup,
    /// The input failed.
    ReadFault,
    /// The output failed.
    WriteFault,
    /// The door failed.
    DoorFault,
    /// 2^32 bytes were taken from the input, and no whole line is left in them.
    Spent,
    /// Memory was wanted outside a line.
    Memory,
}

impl Status {
    /// The status of a run whose lines ended so.
    pub(crate) fn of(ending: Ending) -> Status
        ensures { result ≡ status_of ending }
    {
        match ending {
            Ending::End | Ending::Last => Status::Done,
            Ending::ReadFault => Status::ReadFault,
            Ending::WriteFault => Status::WriteFault,
            Ending::Spent => Status::Spent,
        }
    }

    /// Whether it is `Done`.
    pub(crate) fn is_done(self) -> bool
        ensures { result ≡ is_done self }
    {
        matches!(self, Status::Done)
    }

    /// The exit status of the program.
    pub fn exit(self) -> u8
        ensures { result ≡ exit_status self }
    {
        match self {
            Status::Done => 0,
            Status::Usage => 2,
            Status::Setup => 3,
            Status::ReadFault => 4,
            Status::WriteFault => 5,
            Status::DoorFault => 6,
            Status::Spent => 7,
            Status::Memory => 8,
        }
    }
}
