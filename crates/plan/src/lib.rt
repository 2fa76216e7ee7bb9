//! A plan: a task table beside a guest of any kind of load, the calls on it, and what it promises over every
//! list of calls.

#![tactic(auto)]

pub mod beside;
pub mod call;
pub mod label;
pub mod plan;
