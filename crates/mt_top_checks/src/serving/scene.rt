//! Runs of `serve` over objects in memory.
ghost use Rattle.std.specs.Thread.{IsSync};

use crate::links::check_held;
use mt_base::Words;
use mt_io::{Door, Gate, MemDoor, MemLink, MemSink, MemSource, Source};
use mt_top::{Status, run};
use std::alloc::Global;
use std::process::Abort;
use std::sync::Wait;
use std::thread::Threads;

/// The lines that set up four fixes and a type, and begin the picture.
pub const SETUP: &str = r#"{"do":"fix","name":"Q0","x":0,"y":0}
{"do":"fix","name":"Q1","x":480000,"y":0}
{"do":"fix","name":"Q2","x":0,"y":500000}
{"do":"fix","name":"Q3","x":480000,"y":500000}
{"do":"type","name":"JA1","bands":[[410,480,2100,2100]]}
{"do":"begin"}
"#;

/// Room for all that is written.
pub const AMPLE: u32 = 65_536;

/// The words of a text, between its blanks.
fn words_of(rt: &impl Abort, alloc: Global, text: &str) -> Words {
    let mut words = Words::make(alloc).expect(rt, "memory");
    for word in text.split(' ') {
        words.add(alloc, word).expect(rt, "memory");
    }
    words
}

/// A door with one link.
pub fn door_of(rt: &impl Abort, alloc: Global, link: MemLink) -> MemDoor {
    let mut links = Vec::new(alloc);
    links.push(link).expect(rt, "memory");
    MemDoor::make(alloc, links).expect(rt, "memory")
}

/// A door with two links.
pub fn door_of_two(rt: &impl Abort, alloc: Global, first: MemLink, second: MemLink) -> MemDoor {
    let mut links = Vec::new(alloc);
    links.push(first).expect(rt, "memory");
    links.push(second).expect(rt, "memory");
    MemDoor::make(alloc, links).expect(rt, "memory")
}

/// The input and the words of a run, and what it must end and be answered with.
#[derive(Clone, Copy)]
pub struct Case {
    pub words: &'static str,
    pub input: &'static str,
    pub status: Status,
    pub output: &'static str,
}

/// Runs the program with these words over an output with so much room: how it ended, and the output.
pub fn run_over<R: Threads + Wait + Sync + Abort, S: Source, D: Door, G: Gate + Sync>(
    rt: &R,
    alloc: Global,
    words: &str,
    input: &mut S,
    room: u32,
    door: &mut D,
    gate: &G,
) -> (Status, MemSink)
    requires sync { IsSync R.row }
{
    let words = words_of(rt, alloc, words);
    let mut output = MemSink::make(alloc, room).expect(rt, "memory");
    let status = run(rt, alloc, &words, input, &mut output, door, gate);
    (status, output)
}

/// A source of that text.
pub fn source_of(rt: &impl Abort, alloc: Global, text: &str) -> MemSource {
    MemSource::of(text.as_bytes().to_vec(alloc).expect(rt, "memory"))
}

/// Runs a case over a door.
pub fn check<R: Threads + Wait + Sync + Abort, G: Gate + Sync>(
    rt: &R,
    alloc: Global,
    case: &Case,
    door: &mut MemDoor,
    gate: &G,
)
    requires sync { IsSync R.row }
{
    let mut input = source_of(rt, alloc, case.input);
    let (status, output) = run_over(rt, alloc, case.words, &mut input, AMPLE, door, gate);
    assert!(rt; status == case.status);
    assert!(rt; output.held() == case.output.as_bytes());
}

/// The links that are back have been answered so, and there are no others.
pub fn check_links(rt: &impl Abort, door: &MemDoor, answers: &[&str]) {
    let links = door.returned();
    assert!(rt; links.len() == answers.len());
    for (link, answer) in links.iter().zip(answers) {
        check_held(rt, link, answer);
    }
}
