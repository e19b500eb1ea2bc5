//! `mtcd`: the words of the command line, the standard streams and the door to loopback, handed to the top call.
#![tactic(auto)]

use mt_base::{Memory, Words};
use mt_io::{OpenGate, StdIn, StdOut};
use mt_top::{Status, run};
use mt_ws::AnyDoor;
use std::env;
use std::io::ErrorKind;
use std::process::ExitCode;

/// The words after the program's name. Where one isn't text they are no words, which are no command either.
fn words_of(rt: &HostRuntime) -> Result<Words, Memory> {
    let mut words = Words::make(rt.alloc())?;
    match env::args(rt) {
        Ok(args) => {
            for word in args.skip(1) {
                words.add(rt.alloc(), &word)?;
            }
            Ok(words)
        }
        Err(error) if error.kind() == ErrorKind::OutOfMemory => Err(Memory),
        Err(_) => Ok(words),
    }
}

fn main(rt: HostRuntime) -> ExitCode {
    let Ok(words) = words_of(&rt) else {
        return ExitCode::from(Status::Memory.exit());
    };
    let mut input = StdIn::of(rt.stdin());
    let mut output = StdOut::of(rt.stdout());
    let mut door = AnyDoor::of(rt.alloc(), &rt);
    let status = run(
        &rt,
        rt.alloc(),
        &words,
        &mut input,
        &mut output,
        &mut door,
        &OpenGate,
    );
    ExitCode::from(status.exit())
}
