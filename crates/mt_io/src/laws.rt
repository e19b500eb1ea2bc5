//! What lines are.
ghost use Rattle.mt_io.specs.Lines.{LawsOfLines};

/// The laws of the lines that contracts name: up to each 0x0A one, and then what is left, if it has a byte.
pub fn laws_of_lines()
    ensures { LawsOfLines }
{}
