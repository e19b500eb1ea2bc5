//! What never changes behind a turn, and what no call of a hand changes.
use crate::legal::Legal;
use mt_base::{Entry, Rules};
use mt_tables::Tables;
use mt_turn::{Joined, Turn};
use std::collections::LinkedList;
use std::marker::Model;

/// What never changes behind a turn: the rules and the tables. No value of it is made.
pub struct Fixed {
    /// The rules.
    pub rules: Rules,
    /// The tables.
    pub tables: Tables,
}

impl Model for Fixed {
    ghost use Rattle.mt_base.specs.Tables.{Setup};

    ghost Value = { Setup };

    ghost view = { λ f. record { rules = f.rules; tables = f.tables } };
}

/// What no call of a hand changes: the turn that its seat is of, the seats that were split off it, and those that were joined into it. No
/// value of it is made.
pub struct Home {
    /// The turn.
    pub turn: Turn<Legal>,
    /// The numbers of the seats that were split off.
    pub gave: LinkedList<u64>,
    /// The seats that were joined into it.
    pub joined: LinkedList<Joined<Entry>>,
}
