//! Desks and turns: seats on threads of their own.

mod filing;
mod made;
pub mod opening;
mod plain;
mod turns;
