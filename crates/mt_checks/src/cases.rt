//! Readers of cases that are written as text: a line is a case, its values in order with blanks between them. A line that begins with `;` says what
//! the next ones have in common.

use std::process::Abort;
use std::str::{FromStr, SplitWhitespace};

/// The values of a case, read one after the other.
pub type Values<'a> = SplitWhitespace<'a>;

/// What is checked of each case of a table.
pub trait Check {
    /// Checks a case.
    fn check(rt: &(impl Abort + AllocGlobal), case: &str);
}

/// Whether a line of a table is a case.
fn is_case(line: &str) -> bool {
    !line.is_empty() && !line.starts_with(';')
}

/// Checks each case of a table.
pub fn check_each<C: Check>(rt: &(impl Abort + AllocGlobal), table: &str) {
    for line in table.lines() {
        if is_case(line) {
            C::check(rt, line);
        }
    }
}

/// The first column of a text, and those after it.
pub fn columns<'a>(rt: &impl Abort, text: &'a str) -> (&'a str, &'a str) {
    text.split_once(" | ").expect(rt, "a further column")
}

/// The next value.
pub fn word<'a>(rt: &impl Abort, values: &mut Values<'a>) -> &'a str {
    values.next().expect(rt, "a value")
}

/// The next value, a number.
pub fn number<N: FromStr>(rt: &impl Abort, values: &mut Values<'_>) -> N
where
    N::Err: Drop,
{
    parsed(rt, word(rt, values))
}

/// The number that a text says.
pub fn parsed<N: FromStr>(rt: &impl Abort, text: &str) -> N
where
    N::Err: Drop,
{
    text.parse().ok().expect(rt, "a number")
}

/// What is said of a case holds; where it doesn't, the case is told.
pub fn assert_case(rt: &impl Abort, holds: bool, case: &str) {
    assert!(rt; holds, "{case}");
}

/// The same of a part of a case, which is told with it.
pub fn assert_part(rt: &impl Abort, holds: bool, part: &str, case: &str) {
    assert!(rt; holds, "{part} of {case}");
}

/// The case has no further value.
pub fn check_end(rt: &impl Abort, values: &mut Values<'_>) {
    assert!(rt; values.next().is_none(), "a value too many");
}
