//! Runs cases, each some lines in and the lines out that are wanted, through `run` over objects in memory. The words of the command line
//! are the files of the cases. For each file one line is printed, with its number of cases and of lines that are wanted; after it stand
//! its differences, each with the line of the file at which it stands.
//!
//! A line of such a file begins with a mark; a space and the mark's text follow.
//!
//! | Mark | Text |
//! |---|---|
//! | `;` | anything: it is read by people |
//! | `#` | a name: a case begins |
//! | `=` | a name: a block begins. Its lines are no case, but cases and later blocks may take them |
//! | `+` | a block's name: the lines of that block stand here |
//! | `>` | a line in |
//! | `<` | a line out |
//! | `>>`, `<<` | the same, but `\xHH` stands for the byte of that hexadecimal number and `\xHH{N}` for N of them |
//! | `>-`, `<-` | a line in, or out, without its end, the last one |
//! | `@` | a link of the door begins: the lines in and out after it are its own. It has room for so many bytes out, or for 65,536 |
//! | `@-` | the same, but the link isn't served |
//! | `!>`, `!<` | numbers: the reads and the writes that fail, counted from 1. After a link they are that link's |
//! | `%` | a number: how many bytes a read or a write moves at most. After a link it is that link's |
//! | `!@` | numbers: the calls of the door that fail, of which asking it to listen is the first |
//! | `$` | the words of the command line, where they aren't `replay` |
//! | `?` | the exit status, where it isn't 0 |
//!
//! Empty lines say nothing.
#![tactic(auto)]

mod bytes;
mod case;
mod run_case;
mod script;

ghost use Rattle.std.specs.Thread.{IsSync};

use anyhow::{Context, Result};
use case::read_cases;
use run_case::tell_differences;
use std::sync::Wait;
use std::thread::Threads;
use std::{env, fs};

/// A file's name without its folder and its ending.
fn subject_of(path: &str) -> &str {
    let file = path.rsplit_once('/').map_or(path, |(_, file)| file);
    file.split_once('.').map_or(file, |(subject, _)| subject)
}

/// Runs the cases of a text, and prints what is told of them.
fn run_cases<R: Print + AllocGlobal + Threads + Wait + Sync>(
    rt: &R,
    subject: &str,
    text: &str,
) -> Result<()>
    requires sync { IsSync R.row }
{
    let cases = read_cases(rt.alloc(), text)?;
    let mut replies: usize = 0;
    for case in &cases {
        replies = replies.saturating_add(case.replies());
    }
    println!(rt; "{subject}: {} cases, {replies} lines out", cases.len())?;
    for case in &cases {
        tell_differences(rt, case)?;
    }
    Ok(())
}

fn main(rt: HostRuntime) -> Result<()> {
    for path in env::args(&rt)?.skip(1) {
        let text = fs::read_to_string(&rt, path.as_str())?;
        run_cases(&rt, subject_of(path.as_str()), text.as_str()).context(path)?;
    }
    Ok(())
}
