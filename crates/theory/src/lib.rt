//! What a load is, what the dispatcher does with it, and why an accepted load is never late.
//!
//! The definitions stand in `specs/`, the theorems over them in `proofs/`; `theorems` has a function for each
//! theorem, whose contract states it. `load` has the interface that every kind of load implements, `limits` how far its
//! questions go, `rows` the rows of ticks that it answers, `verdict` the two ways in which a load can fail to be accepted.

#![tactic(auto)]

pub mod limits;
pub mod load;
pub mod rows;
pub mod theorems;
pub mod verdict;
