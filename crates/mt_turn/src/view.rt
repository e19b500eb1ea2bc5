//! What a seat knows. No value of these types is made: a `LinkedList` stands for a plain list, and a `u64` for a number.
use std::collections::LinkedList;

/// Where a seat is on its way through the turn.
pub enum Phase<E> {
    /// It is outside.
    Idle,
    /// It has drawn the number of a seat that it is about to split off.
    Splits(u64),
    /// It waits with a ticket. Tickets don't wrap here.
    Waits(u64),
    /// It has the turn, with a ticket, and was lent the value with this history.
    Holds(u64, LinkedList<E>),
    /// It has put the value back, and counted its entries.
    Counted(u64),
    /// It was joined into another.
    Spent,
}

/// A seat that was joined into the first one.
pub struct Joined<E> {
    /// Its number.
    pub number: u64,
    /// What it had seen of the history.
    pub seen: LinkedList<E>,
    /// The entries of its number, in order.
    pub mine: LinkedList<E>,
}

/// What a seat knows.
pub struct View<E, F> {
    /// 0 for the first seat. No two seats of a turn have one number.
    pub number: u64,
    /// The part of the history that the seat has seen. It is a beginning of it.
    pub seen: LinkedList<E>,
    /// The entries of the seat's number, in order.
    pub mine: LinkedList<E>,
    /// The numbers of the seats that were split off, in order.
    pub gave: LinkedList<u64>,
    /// The seats that were joined into it, in order.
    pub joined: LinkedList<Joined<E>>,
    /// The plain data of the value. A spent view has none.
    pub fixed: Option<F>,
    /// Where the seat is on its way through the turn.
    pub phase: Phase<E>,
}
