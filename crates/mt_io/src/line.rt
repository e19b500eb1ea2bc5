//! What a reader of lines gives.

/// A line, or the end.
#[derive(Clone, Copy, Debug)]
pub enum Line<'a> {
    /// A line of at most 65,536 bytes, without its 0x0A.
    Text(&'a [u8]),
    /// A line of more than 65,536 bytes, which was skipped.
    Long,
    /// The source ended, and no line is left.
    End,
}

/// Why a reader stopped.
#[derive(Clone, Copy, Debug, PartialEq, Eq)]
pub enum LineFault {
    /// The source failed.
    ReadFault,
    /// 2^32 bytes were taken, as many as a reader takes, and they hold no further line.
    Spent,
}

/// What a reader's step found: a line that is kept whole, a longer one, or the end.
#[derive(Clone, Copy)]
pub enum Step {
    Short,
    Skipped,
    Finished,
}
