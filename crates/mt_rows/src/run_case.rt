//! A case is run, and its differences are told.
ghost use Rattle.std.specs.Thread.{IsSync};

use crate::case::{Case, End};
use anyhow::{Result, anyhow};
use mt_base::Words;
use mt_io::{MemDoor, MemLink, MemSink, MemSource, OpenGate};
use mt_top::run;
use std::alloc::Global;
use std::str;
use std::sync::Wait;
use std::thread::Threads;

/// Runs a case over a door with its links, and prints what is otherwise than it wants.
pub fn tell_differences<R: Print + AllocGlobal + Threads + Wait + Sync>(
    rt: &R,
    case: &Case<'_>,
) -> Result<()>
    requires sync { IsSync R.row }
{
    let words = words_of(rt.alloc(), case.words)?;
    let mut source = source_of(&case.streams)?;
    let mut sink = sink_of(rt.alloc(), &case.streams)?;
    let mut door = door_of(rt.alloc(), case)?;
    let status = run(
        rt,
        rt.alloc(),
        &words,
        &mut source,
        &mut sink,
        &mut door,
        &OpenGate,
    )
    .exit();
    compare_lines(rt, case.name, &case.streams, sink.held())?;
    compare_links(rt, case, door.returned())?;
    if status != case.status {
        println!(rt;
            "{}: exit status {status}, wanted {}",
            case.name, case.status
        )?;
    }
    Ok(())
}

// The input of the program.
fn source_of(end: &End) -> Result<MemSource> {
    let source = MemSource::of(end.input.clone()?);
    Ok(source.failing(end.reads.clone()?, end.most.get()))
}

// Its output, with nothing written.
fn sink_of(alloc: Global, end: &End) -> Result<MemSink> {
    let sink = MemSink::make(alloc, end.room).map_err(|_| anyhow!("memory"))?;
    Ok(sink.failing(end.writes.clone()?, end.most.get()))
}

// A door with the links of the case.
fn door_of(alloc: Global, case: &Case<'_>) -> Result<MemDoor> {
    let mut links = Vec::new(alloc);
    for end in &case.links {
        links.push(link_of(alloc, end)?)?;
    }
    let door = MemDoor::make(alloc, links).map_err(|_| anyhow!("memory"))?;
    Ok(door.failing(case.door_calls.clone()?))
}

fn link_of(alloc: Global, end: &End) -> Result<MemLink> {
    let link = MemLink::make(alloc, end.input.clone()?, end.room).map_err(|_| anyhow!("memory"))?;
    let (reads, writes) = (end.reads.clone()?, end.writes.clone()?);
    Ok(link.failing(reads, writes, end.most.get()))
}

// The words of a command line.
fn words_of(alloc: Global, text: &str) -> Result<Words> {
    let mut words = Words::make(alloc).map_err(|_| anyhow!("memory"))?;
    for word in text.split_whitespace() {
        words.add(alloc, word).map_err(|_| anyhow!("memory"))?;
    }
    Ok(words)
}

// Compares what was answered over the links that came back with what those that are to be served want.
fn compare_links(
    rt: &(impl Print + AllocGlobal + Threads + Sync),
    case: &Case<'_>,
    links: &[MemLink],
) -> Result<()> {
    let mut links = links.iter();
    for end in &case.links {
        if end.is_served {
            match links.next() {
                Some(link) => compare_lines(rt, case.name, end, link.held())?,
                None => println!(rt; "{}: a link that was not served", case.name)?,
            }
        }
    }
    if links.next().is_some() {
        println!(rt; "{}: a link more was served", case.name)?;
    }
    Ok(())
}

// Compares what was written at an end with the lines that it wants, one by one.
fn compare_lines(
    rt: &(impl Print + AllocGlobal + Threads + Sync),
    name: &str,
    end: &End,
    written: &[u8],
) -> Result<()> {
    let mut lines = written.split_inclusive(|byte| *byte == b'\n');
    for reply in &end.replies {
        let line = lines.next().unwrap_or_default();
        if line != reply.bytes.as_slice() {
            println!(rt; "{name}, line {}", reply.number)?;
            println!(rt; "  wanted {}", text_of(&reply.bytes))?;
            println!(rt; "  got    {}", text_of(line))?;
        }
    }
    for line in lines {
        println!(rt; "{name}, behind the last line that is wanted")?;
        println!(rt; "  got    {}", text_of(line))?;
    }
    Ok(())
}

// A line out, with its end, as a text without it.
fn text_of(line: &[u8]) -> &str {
    match str::from_utf8(line) {
        Ok(text) => text.strip_suffix('\n').unwrap_or("no whole line"),
        Err(_) => "bytes that are no text",
    }
}
