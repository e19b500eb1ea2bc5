//! Tests of calls of the crates below, of cases that no line of a script can say.
//!
//! Cases that lines can say are those of `mt_rows`; what is done on threads and through the top call is tested by `mt_top_checks`.
//!
//! What costs much to check stands once: values with long drops are given to `drop`, a case is a line of a table, whose reader and messages are those
//! of `cases`, and rows are written out whole, since one that is made from another copies it field by field.
#![tactic(auto)]

#[cfg(test)]
mod cases;
#[cfg(test)]
mod cells;
#[cfg(test)]
mod doors;
#[cfg(test)]
mod fractions;
#[cfg(test)]
mod names;
#[cfg(test)]
mod pairs;
#[cfg(test)]
mod requests;
#[cfg(test)]
mod segments;
#[cfg(test)]
mod streams;
#[cfg(test)]
mod tables;
#[cfg(test)]
mod web_sockets;
