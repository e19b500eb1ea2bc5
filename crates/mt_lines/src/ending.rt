//! How lines end.
ghost use Rattle.std.specs.Prelude.{◌≡◌};
ghost use Rattle.mt_lines.specs.Ending.{ending_after, fault_ending};

use mt_io::{LineFault, WriteFault};

/// How lines that were answered one by one ended.
#[derive(Clone, Copy, Debug, PartialEq, Eq)]
pub enum Ending {
    /// The input was read to its end, and each line was answered.
    End,
    /// A line was answered after which none is.
    Last,
    /// The input failed.
    ReadFault,
    /// The output failed.
    WriteFault,
    /// 2^32 bytes were taken from the input, and no whole line is left in them.
    Spent,
}

impl Ending {
    /// How lines end at a fault of their reader.
    pub fn of(fault: LineFault) -> Ending
        ensures { result ≡ fault_ending fault }
    {
        match fault {
            LineFault::ReadFault => Ending::ReadFault,
            LineFault::Spent => Ending::Spent,
        }
    }

    /// How lines end once a reply was given, where they do: the output failed, or the reply was the last one, or they are over then.
    pub fn after(given: Result<bool, WriteFault>, is_over: bool) -> Option<Ending>
        ensures { result ≡ ending_after given is_over }
    {
        match given {
            Err(_) => Some(Ending::WriteFault),
            Ok(true) => Some(Ending::Last),
            Ok(false) if is_over => Some(Ending::Last),
            Ok(false) => None,
        }
    }
}
