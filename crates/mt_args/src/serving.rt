//! The options of `serve`.
ghost use Rattle.std.specs.Prelude.{◌≡◌, ◌<◌, drop, length, IfOk, MatchResult, Some, None, option_map};
ghost use Rattle.mt_args.specs.Task.{IsBoundedTask, no_serving, serve_task, serving_with, set_by};

use crate::command_option::{CommandOption, option_at};
use crate::number::once;
use crate::task::{Task, Usage};
use mt_base::Words;
use std::marker::Model;

// The options that are set.
#[derive(Drop)]
struct Serving {
    port: Option<u16>,
    sessions: Option<u32>,
    workers: Option<u32>,
}

impl Model for Serving {
    ghost use Rattle.std.specs.Prelude.{IfSome};
    ghost use Rattle.mt_args.specs.Task.{AreFewSessions, AreFewWorkers, ServeOptions};

    ghost Value = { ServeOptions };

    ghost view = { λ s. record { port = s.port; sessions = s.sessions; workers = s.workers } };

    ghost invariant = { λ s. IfSome s.sessions AreFewSessions × IfSome s.workers AreFewWorkers };
}

impl Serving {
    // Sets an option that isn't set yet.
    fn set(&mut self, name: &str, value: &str) -> Result<(), Usage>
        ensures { MatchResult result (λ _. serving_with self.old (record { name = name.now; value = value.now }) ≡ Some self.new)
            (λ _. serving_with self.old (record { name = name.now; value = value.now }) ≡ None) }
    {
        if name == "--port" {
            self.port = Some(once(self.port.is_some(), value, 1, 65_535)? as u16);
            return Ok(());
        }
        if name == "--sessions" {
            self.sessions = Some(once(self.sessions.is_some(), value, 1, 64)? as u32);
            return Ok(());
        }
        if name == "--workers" {
            self.workers = Some(once(self.workers.is_some(), value, 0, 8)? as u32);
            return Ok(());
        }
        Err(Usage)
    }
}

/// Reads the words after the first as the options of `serve`.
pub fn serve(words: &Words) -> Result<Task, Usage>
    requires { 0 < length words.now }
    ensures task { MatchResult result (λ task. option_map serve_task (set_by serving_with no_serving (drop 1 words.now)) ≡ Some task)
        (λ _. option_map serve_task (set_by serving_with no_serving (drop 1 words.now)) ≡ None) }
    ensures bounded { IfOk result IsBoundedTask }
{
    let mut serving = Serving {
        port: None,
        sessions: None,
        workers: None,
    };
    let mut at = 1;
    while at < words.count() {
        let Some(CommandOption { name, value, next }) = option_at(words, at) else {
            return Err(Usage);
        };
        serving.set(name, value)?;
        at = next;
    }
    Ok(Task::Serve {
        port: serving.port.unwrap_or(7_700),
        sessions: serving.sessions.unwrap_or(16),
        workers: serving.workers.unwrap_or(2),
    })
}
