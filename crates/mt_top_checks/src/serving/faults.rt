//! The whole program over streams that fail: a source that fails after each byte, and a sink that is full after each byte.
ghost use Rattle.std.specs.Thread.{IsSync};

use super::scene::{AMPLE, run_over, source_of};
use mt_io::{MemDoor, MemSink, MemSource, OpenGate, Source};
use mt_top::Status;
use std::alloc::Global;
use std::process::Abort;
use std::sync::Wait;
use std::thread::Threads;

/// What is written where the words are no command.
const USAGE: &str =
    "usage: mtcd replay | standby | serve [--port P] [--sessions N] [--workers W] | load [--flights N] [--number X]\n";

/// Two flights head-on: the script, and its answers.
const INPUT: &str = r#"{"do":"begin"}
{"call":"AAA1","do":"external","from":0,"to":1200,"vx":480,"x":0,"y":0,"z":2100000}
{"call":"BBB1","do":"external","from":0,"to":1200,"vx":-480,"x":144000,"y":0,"z":2100000}
{"do":"list"}
"#;

const OUTPUT: &str = r#"{"done":"begin"}
{"entered":1}
{"entered":2}
{"conflicts":[{"first":131,"kinds":"aa","last":168,"pair":["AAA1","BBB1"]}],"version":2}
"#;

// The first lines of a text, as many as the count says, with their ends.
fn first_lines(text: &str, count: usize) -> &str {
    let mut rest = text;
    for _ in 0..count {
        match rest.split_once('\n') {
            Some((_, after)) => rest = after,
            None => rest = "",
        }
    }
    text.strip_suffix(rest).unwrap_or(text)
}

// A door with no link.
fn no_door(rt: &impl Abort, alloc: Global) -> MemDoor {
    MemDoor::make(alloc, Vec::new(alloc)).expect(rt, "memory")
}

// How many lines end in these bytes.
fn count_lines(bytes: &[u8]) -> usize {
    let mut count: usize = 0;
    for byte in bytes {
        if *byte == b'\n' {
            count = count.saturating_add(1);
        }
    }
    count
}

// A run over that input and no door, and an output with so much room: how it ended, and the output.
fn ended<R: Abort + Threads + Wait + Sync, S: Source>(
    rt: &R,
    alloc: Global,
    words: &str,
    input: &mut S,
    room: u32,
) -> (Status, MemSink)
    requires sync { IsSync R.row }
{
    let mut door = no_door(rt, alloc);
    run_over(rt, alloc, words, input, room, &mut door, &OpenGate)
}

// The input, of which each read gives a byte, and the one after so many bytes fails.
fn torn_behind(rt: &impl Abort, alloc: Global, given: usize) -> MemSource {
    let bytes = INPUT.as_bytes().to_vec(alloc).expect(rt, "memory");
    let mut calls = Vec::new(alloc);
    calls
        .push((given as u64).saturating_add(1))
        .expect(rt, "memory");
    MemSource::of(bytes).failing(calls, 1)
}

// Whether an input that fails after so many bytes is answered up to its last whole line.
fn is_answered<R: Abort + Threads + Wait + Sync>(rt: &R, alloc: Global, given: usize) -> bool
    requires sync { IsSync R.row }
{
    let mut source = torn_behind(rt, alloc, given);
    let (ended, sink) = ended(rt, alloc, "replay", &mut source, AMPLE);
    let whole = count_lines(&INPUT.as_bytes()[..given.min(INPUT.len())]);
    ended == Status::ReadFault && sink.held() == first_lines(OUTPUT, whole).as_bytes()
}

// Whether an output with room for this many bytes takes these, and then fails.
fn is_full<R: Abort + Threads + Wait + Sync>(
    rt: &R,
    alloc: Global,
    words: &str,
    room: u32,
    taken: &[u8],
) -> bool
    requires sync { IsSync R.row }
{
    let mut source = source_of(rt, alloc, INPUT);
    let (ended, sink) = ended(rt, alloc, words, &mut source, room);
    ended == Status::WriteFault && sink.held() == taken
}

// An input fails after each byte.
fn check_torn<R: Abort + Threads + Wait + Sync>(rt: &R, alloc: Global)
    requires sync { IsSync R.row }
{
    for given in 0..=INPUT.len() {
        let is_answered = is_answered(rt, alloc, given);
        assert!(rt; is_answered, "{given}");
    }
}

// The output that these words have is full after each byte.
fn check_full<R: Abort + Threads + Wait + Sync>(rt: &R, alloc: Global, words: &str, output: &str)
    requires sync { IsSync R.row }
{
    for room in 0..output.len() {
        let taken = &output.as_bytes()[..room];
        let room = u32::try_from(room).ok().expect(rt, "a small room");
        let is_full = is_full(rt, alloc, words, room, taken);
        assert!(rt; is_full, "{room}");
    }
}

#[test]
fn streams_that_fail_at_each_place(rt: HostRuntime) {
    check_torn(&rt, rt.alloc());
    check_full(&rt, rt.alloc(), "replay", OUTPUT);
    check_full(&rt, rt.alloc(), "fly", USAGE);
}
