//! A file of cases, read as its cases and blocks.

use anyhow::{Context, Result, bail};
use std::alloc::Global;

/// A line of a case or a block: its number in the file from 1, its mark, and its text.
#[derive(Clone, Copy, Drop)]
pub struct Step<'a> {
    pub number: u32,
    pub mark: &'a str,
    pub text: &'a str,
}

/// A case or a block of that name, with its lines; those of the blocks that it takes stand among them.
#[derive(Drop)]
pub struct Script<'a> {
    pub name: &'a str,
    pub is_case: bool,
    pub steps: Vec<Step<'a>>,
}

/// Reads the cases and blocks of a file, in order.
pub fn read_scripts(alloc: Global, text: &str) -> Result<Vec<Script<'_>>> {
    let mut scripts = Vec::new(alloc);
    for (number, line) in (1..u32::MAX).zip(text.lines()) {
        let (mark, text) = line.split_once(' ').unwrap_or((line, ""));
        let step = Step { number, mark, text };
        read_step(alloc, &mut scripts, step).with_context(|| number)?;
    }
    Ok(scripts)
}

/// Puts a line after those that were read before it.
fn read_step<'a>(alloc: Global, scripts: &mut Vec<Script<'a>>, step: Step<'a>) -> Result<()> {
    match step.mark {
        ";" => Ok(()),
        "" if step.text.is_empty() => Ok(()),
        "#" | "=" => {
            scripts.push(Script {
                name: step.text,
                is_case: step.mark == "#",
                steps: Vec::new(alloc),
            })?;
            Ok(())
        }
        "+" => take_block(scripts, step.text),
        _ => {
            let script = scripts.last_mut().context("no case has begun")?;
            script.steps.push(step)?;
            Ok(())
        }
    }
}

/// Puts the lines of a block after those of the last case or block.
fn take_block(scripts: &mut Vec<Script<'_>>, name: &str) -> Result<()> {
    let Some(mut script) = scripts.pop() else {
        bail!("no case has begun");
    };
    let block = scripts
        .iter()
        .find(|block| !block.is_case && block.name == name)
        .context("no block has that name")?;
    script.steps.extend_from_slice(&block.steps)?;
    scripts.push(script)?;
    Ok(())
}
