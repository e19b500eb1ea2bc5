//! The table of words.
ghost use Rattle.std.specs.Prelude.{◌≡◌, ◌<◌, drop, length, IfOk, MatchResult, Some, None};
ghost use Rattle.mt_args.specs.Task.{IsBoundedTask, task_of};

use crate::loading::load;
use crate::serving::serve;
use crate::task::{Task, Usage};
use mt_base::Words;

/// Reads the words of a command line, without the program's name, as what they ask for; `Usage` for every list of words that asks for
/// nothing. It takes no memory.
///
/// `replay` and `standby` stand alone. `serve` has the options `--port` (1 to 65,535, by default 7700), `--sessions` (1 to 64, by default 16) and
/// `--workers` (0 to 8, by default 2), `load` the options `--flights` (1 to 1,024, by default 40) and `--number` (0 to 4,294,967,295, by
/// default 1). Options follow in any order, each at most once, as `--port 7700` or `--port=7700`. A number is 1 to 10 ASCII digits.
pub fn read_words(words: &Words) -> Result<Task, Usage>
    ensures task { MatchResult result (λ task. task_of words.now ≡ Some task) (λ _. task_of words.now ≡ None) }
    ensures bounded { IfOk result IsBoundedTask }
{
    if words.count() == 0 {
        return Err(Usage);
    }
    let command = words.word(0);
    if command == "replay" {
        return alone(words, Task::Replay);
    }
    if command == "standby" {
        return alone(words, Task::Standby);
    }
    if command == "serve" {
        return serve(words);
    }
    if command == "load" {
        return load(words);
    }
    Err(Usage)
}

// Reads the words after the first as those of a task that has none.
fn alone(words: &Words, task: Task) -> Result<Task, Usage>
    requires { 0 < length words.now }
    ensures { MatchResult result (λ given. (length (drop 1 words.now) ≡ 0) × (given ≡ task)) (λ _. 0 < length (drop 1 words.now)) }
{
    if words.count() == 1 {
        Ok(task)
    } else {
        Err(Usage)
    }
}
