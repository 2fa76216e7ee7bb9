//! The verdict on a load, generic over any load: the busy period, the judge's walk and the audit's look.
//!
//! Nothing here knows a kind of load: the proofs rest on the laws of a load. Search and walk go by rows of ticks where
//! that is faster.

#![tactic(auto)]

mod claims;
pub mod look;
mod pace;
pub mod search;
pub mod theorems;
pub mod walk;
