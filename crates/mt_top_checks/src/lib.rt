//! Tests of histories as text, of desks and seats on threads, and through the top call, of cases that no line of a script can say.
#![tactic(auto)]

#[cfg(test)]
mod desks;
#[cfg(test)]
mod histories;
#[cfg(test)]
mod links;
#[cfg(test)]
mod names;
#[cfg(test)]
mod reports;
#[cfg(test)]
mod seats;
#[cfg(test)]
mod serving;
#[cfg(test)]
mod tables;
