//! The options of `load`.
ghost use Rattle.std.specs.Prelude.{◌≡◌, ◌<◌, drop, length, IfOk, MatchResult, Some, None, option_map};
ghost use Rattle.mt_args.specs.Task.{IsBoundedTask, load_task, loading_with, no_loading, set_by};

use crate::command_option::{CommandOption, option_at};
use crate::number::once;
use crate::task::{Task, Usage};
use mt_base::Words;
use std::marker::Model;

// The options that are set.
#[derive(Drop)]
struct Loading {
    flights: Option<u32>,
    number: Option<u64>,
}

impl Model for Loading {
    ghost use Rattle.std.specs.Prelude.{IfSome};
    ghost use Rattle.mt_args.specs.Task.{IsFlights, LoadOptions};

    ghost Value = { LoadOptions };

    ghost view = { λ s. record { flights = s.flights; number = s.number } };

    ghost invariant = { λ s. IfSome s.flights IsFlights };
}

impl Loading {
    // Sets an option that isn't set yet.
    fn set(&mut self, name: &str, value: &str) -> Result<(), Usage>
        ensures { MatchResult result (λ _. loading_with self.old (record { name = name.now; value = value.now }) ≡ Some self.new)
            (λ _. loading_with self.old (record { name = name.now; value = value.now }) ≡ None) }
    {
        if name == "--flights" {
            self.flights = Some(once(self.flights.is_some(), value, 1, 1_024)? as u32);
            return Ok(());
        }
        if name == "--number" {
            self.number = Some(once(self.number.is_some(), value, 0, 4_294_967_295)?);
            return Ok(());
        }
        Err(Usage)
    }
}

/// Reads the words after the first as the options of `load`.
pub fn load(words: &Words) -> Result<Task, Usage>
    requires { 0 < length words.now }
    ensures task { MatchResult result (λ task. option_map load_task (set_by loading_with no_loading (drop 1 words.now)) ≡ Some task)
        (λ _. option_map load_task (set_by loading_with no_loading (drop 1 words.now)) ≡ None) }
    ensures bounded { IfOk result IsBoundedTask }
{
    let mut loading = Loading {
        flights: None,
        number: None,
    };
    let mut at = 1;
    while at < words.count() {
        let Some(CommandOption { name, value, next }) = option_at(words, at) else {
            return Err(Usage);
        };
        loading.set(name, value)?;
        at = next;
    }
    Ok(Task::Load {
        flights: loading.flights.unwrap_or(40),
        number: loading.number.unwrap_or(1),
    })
}
