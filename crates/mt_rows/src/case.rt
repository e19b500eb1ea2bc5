//! A case: what goes in, and what is wanted.

use crate::bytes::push_escaped;
use crate::script::{Script, Step, read_scripts};
use anyhow::{Context, Result, bail};
use std::alloc::Global;
use std::num::NonZeroU32;

/// Room for what the program writes, and for what a link is answered, in bytes.
const STREAM_ROOM: u32 = 1 << 20;

const LINK_ROOM: u32 = 1 << 16;

/// A line out that is wanted, with its end where it has one, and its number in the file.
#[derive(Drop)]
pub struct Reply {
    pub number: u32,
    pub bytes: Vec<u8>,
}

/// What one end sends, and the lines out that it wants: the two streams of the program, or a link of its door. There is room for so many
/// bytes of lines out. The reads and writes with these numbers fail, each counted from 1, and each of the others moves at most so many bytes.
#[derive(Drop)]
pub struct End {
    pub input: Vec<u8>,
    pub replies: Vec<Reply>,
    pub room: u32,
    pub reads: Vec<u64>,
    pub writes: Vec<u64>,
    pub most: NonZeroU32,
    pub is_served: bool,
}

/// A case: its name, the words of the command line, its streams, the links of its door in order, the numbers of the door's calls that fail,
/// and the exit status.
#[derive(Drop)]
pub struct Case<'a> {
    pub name: &'a str,
    pub words: &'a str,
    pub streams: End,
    pub links: Vec<End>,
    pub door_calls: Vec<u64>,
    pub status: u8,
}

/// Reads the cases of a file, in order.
pub fn read_cases(alloc: Global, text: &str) -> Result<Vec<Case<'_>>> {
    let mut cases = Vec::new(alloc);
    for script in &read_scripts(alloc, text)? {
        if script.is_case {
            cases.push(Case::of(alloc, script)?)?;
        }
    }
    Ok(cases)
}

impl<'a> Case<'a> {
    /// How many lines out it wants.
    pub fn replies(&self) -> usize {
        let mut count = self.streams.replies.len();
        for link in &self.links {
            count = count.saturating_add(link.replies.len());
        }
        count
    }

    // The case that a script says.
    fn of(alloc: Global, script: &Script<'a>) -> Result<Case<'a>> {
        let mut case = Case {
            name: script.name,
            words: "replay",
            streams: End::of(alloc, STREAM_ROOM, true),
            links: Vec::new(alloc),
            door_calls: Vec::new(alloc),
            status: 0,
        };
        for step in &script.steps {
            case.take(alloc, step).with_context(|| step.number)?;
        }
        Ok(case)
    }

    // Takes a line of the script. What stands after a link is that link's.
    fn take(&mut self, alloc: Global, step: &Step<'a>) -> Result<()> {
        match step.mark {
            "$" => self.words = step.text,
            "?" => self.status = step.text.parse()?,
            "@" => self.links.push(End::of(alloc, room_of(step.text)?, true))?,
            "@-" => self.links.push(End::of(alloc, LINK_ROOM, false))?,
            "!@" => self.door_calls = numbers_of(alloc, step.text)?,
            _ => match self.links.last_mut() {
                Some(link) => link.take(alloc, step)?,
                None => self.streams.take(alloc, step)?,
            },
        }
        Ok(())
    }
}

impl End {
    fn of(alloc: Global, room: u32, is_served: bool) -> End {
        End {
            input: Vec::new(alloc),
            replies: Vec::new(alloc),
            room,
            reads: Vec::new(alloc),
            writes: Vec::new(alloc),
            most: NonZeroU32::MAX,
            is_served,
        }
    }

    // Takes a line in or out, or what is said of the calls.
    fn take(&mut self, alloc: Global, step: &Step<'_>) -> Result<()> {
        match step.mark {
            ">" | ">-" => self.input.extend_from_slice(step.text.as_bytes())?,
            ">>" => push_escaped(&mut self.input, step.text)?,
            "<" | "<-" | "<<" => self.replies.push(reply_of(alloc, step)?)?,
            "!>" => self.reads = numbers_of(alloc, step.text)?,
            "!<" => self.writes = numbers_of(alloc, step.text)?,
            "%" => self.most = NonZeroU32::new(step.text.parse()?).context("no byte a call")?,
            _ => bail!("no mark of a line"),
        }
        if step.mark == ">" || step.mark == ">>" {
            self.input.push(b'\n')?;
        }
        Ok(())
    }
}

// The numbers of a text.
fn numbers_of(alloc: Global, text: &str) -> Result<Vec<u64>> {
    let mut numbers = Vec::new(alloc);
    for word in text.split_whitespace() {
        numbers.push(word.parse()?)?;
    }
    Ok(numbers)
}

// The room of a link for its lines out.
fn room_of(text: &str) -> Result<u32> {
    if text.is_empty() {
        return Ok(LINK_ROOM);
    }
    Ok(text.parse()?)
}

// The line out that is wanted by a line of a script.
fn reply_of(alloc: Global, step: &Step<'_>) -> Result<Reply> {
    let mut bytes = Vec::new(alloc);
    if step.mark == "<<" {
        push_escaped(&mut bytes, step.text)?;
    } else {
        bytes.extend_from_slice(step.text.as_bytes())?;
    }
    if step.mark != "<-" {
        bytes.push(b'\n')?;
    }
    Ok(Reply {
        number: step.number,
        bytes,
    })
}
