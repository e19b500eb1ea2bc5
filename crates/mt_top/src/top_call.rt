//! The top call.
ghost use Rattle.std.specs.Prelude.{◌≡◌, ℕ, List};
ghost use Rattle.std.specs.declared.option.Option.{Option};
ghost use Rattle.std.specs.Thread.{IsSync};
ghost use Rattle.mt_io.specs.Causes.{Rose};
ghost use Rattle.mt_lines.specs.Answering.{Explains};
ghost use Rattle.mt_lines.specs.Streams.{LeavesStream};
ghost use Rattle.mt_top.specs.Run.{IsNoFault, RunMeans, UsageMeans};
ghost use Rattle.mt_top.specs.declared.status.Status.TheVariants.{DoorFault, ReadFault, WriteFault};

use crate::following::Follower;
use crate::lines::Lines;
use crate::load::load;
use crate::serving::{ServeTask, serve};
use crate::status::Status;
use mt_args::{Task, read_words};
use mt_base::Words;
use mt_io::{Door, Gate, Sink, Source, put_all};
use mt_world::Script;
use std::alloc::Global;
use std::sync::Wait;
use std::thread::Threads;

/// What is written where the words are no command.
const USAGE: &[u8] =
    b"usage: mtcd replay | standby | serve [--port P] [--sessions N] [--workers W] | load [--flights N] [--number X]\n";

/// Does all that the program does: `words` are those of its command line, without its name; `input` and `output` its streams; `door` is where
/// links come from, and `gate` a place between two turns of a session.
///
/// The word `replay` alone answers each line of the input on the output. The word `standby` alone does so up to the line that begins the
/// picture, and then follows the entries of a primary's history, and tells what holds. The word `load` with its options makes a large input,
/// runs it and writes one line that sums it up. The word `serve` with its options answers the lines of the input up to the one that begins a
/// picture, serves links of the door over it, and writes one line that sums that up. Any other words are answered by the usage line. Words
/// are read by the table of `mt_args`.
///
/// `means` is the whole promise, for each status: by the words, of which lines of the input, from its first byte on, and in which order
/// the bytes written are the answers. Each reply is that of the line in the state of the history of the lines before it. In `serve` one legal
/// history ties all that was sent to links and answered on them. The other clauses say when a fault may be answered: only where the count of
/// that object rose in this call.
pub fn run<R: Threads + Wait + Sync, S: Source, K: Sink, D: Door, G: Gate + Sync>(
    rt: &R,
    alloc: Global,
    words: &Words,
    input: &mut S,
    output: &mut K,
    door: &mut D,
    gate: &G,
) -> Status
    requires sync { IsSync R.row }
    ensures means { Explains (RunMeans D.Link.Source D.Link.Sink
        (record { count = D.count door.old; still = D.still door.old; returned = D.returned door.old; faults = D.faults door.old })
        (record { count = D.count door.new; still = D.still door.new; returned = D.returned door.new; faults = D.faults door.new })
        (K.faults output.old) (K.faults output.new) words.now result)
        (S.left input.old) (S.left input.new) (K.held output.old) (K.held output.new) }
    ensures read { result ≡ ReadFault → Rose (S.faults input.old) (S.faults input.new) }
    ensures write { result ≡ WriteFault → Rose (K.faults output.old) (K.faults output.new) }
    ensures door { result ≡ DoorFault → Rose (D.faults door.old) (D.faults door.new) }
    ensures complete { ¬ Rose (S.faults input.old) (S.faults input.new) → ¬ Rose (K.faults output.old) (K.faults output.new)
        → ¬ Rose (D.faults door.old) (D.faults door.new) → IsNoFault result }
    ensures reads { S.reads_to input.old input.new }
    ensures writes { K.writes_to output.old output.new }
{
    let Ok(task) = read_words(words) else {
        return usage(output);
    };
    match task {
        Task::Replay => Lines::<Script>::answer_input(rt, alloc, input, output),
        Task::Standby => Lines::<Follower>::answer_input(rt, alloc, input, output),
        Task::Load { flights, number } => load(rt, alloc, flights, number, output),
        Task::Serve {
            port,
            sessions,
            workers,
        } => {
            let task = ServeTask {
                port,
                sessions,
                workers,
            };
            serve(rt, alloc, task, input, output, door, gate)
        }
    }
}

// Writes the usage line. No input is read, whatever it has left.
fn usage<K: Sink>(output: &mut K) -> Status
    ensures means { (left : Option (List ℕ)) → Explains (UsageMeans result) left left (K.held output.old) (K.held output.new) }
    ensures output { LeavesStream (result ≡ WriteFault) (K.faults output.old) (K.faults output.new) (K.writes_to output.old output.new) }
{
    match put_all(output, USAGE) {
        Ok(()) => Status::Usage,
        Err(_) => Status::WriteFault,
    }
}
