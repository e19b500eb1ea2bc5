//! A worker.
ghost use Rattle.std.specs.Prelude.{◌≡◌, true};
ghost use Rattle.std.specs.Thread.{IsSync};
ghost use Rattle.mt_board.specs.BoardSeat.{GoesOn, IsSameSeat};
ghost use Rattle.mt_workers.specs.Work.{HasWorkedAll};

use crate::inbox::Inbox;
use mt_base::Command;
use mt_board::Board;
use mt_io::Gate;
use std::sync::Wait;
use std::thread::Threads;

/// Renews the flight of each job, one after the other, until the inbox says that no job will come, and gives the board and the inbox back. A renewal
/// that is refused, or that finds no memory, is passed over.
pub fn work<R: Threads + Wait + Sync, B: Board, I: Inbox + Drop, G: Gate>(
    rt: &R,
    board: B,
    jobs: I,
    gate: &G,
) -> (B, I)
    requires sync { IsSync R.row }
    ensures worked { HasWorkedAll (I.left jobs) (B.seat board) (B.seat result.0) }
    ensures over { I.is_over result.1 ≡ true }
    ensures on { IsSameSeat (B.seat board) (B.seat result.0) × GoesOn (B.seat board).seen (B.seat result.0).seen }
    ensures home { B.home result.0 ≡ B.home board }
{
    let mut board = board;
    let mut jobs = jobs;
    for _ in rt.forever() {
        let Some(job) = jobs.next(rt) else {
            return (board, jobs);
        };
        let _renewed = board.change(rt, Command::Renew { call: job.call }, gate);
    }
    unreachable!()
}
