//! The byte format of a plan image: its definitions and theorems, the parts borrowed from an image, and the faults of
//! each layer.

#![tactic(auto)]

pub mod before;
pub mod fault;
pub mod part;
pub mod theorems;
