//! Tests of flow tables, queues of copies, barriers and stamps: what no clause says, that calls succeed where memory is
//! there.
//!
//! Layer: tests. The root of the crate, which no code calls.
#![tactic(auto)]

#[cfg(test)]
mod changes;
#[cfg(test)]
mod flights;
#[cfg(test)]
mod hits;
#[cfg(test)]
mod replies;
#[cfg(test)]
mod sends;
#[cfg(test)]
mod stamps;
#[cfg(test)]
mod tables;
