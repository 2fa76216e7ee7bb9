//! The records of a plan and the kinds of load: tasks in a table of 64 channels, and frames in a ramp train.

#![tactic(auto)]

pub mod entry;
mod fixed_vec;
pub mod frame;
pub mod marks;
mod places;
mod ranges;
pub mod refusal;
mod steps;
pub mod table;
pub mod task;
pub mod theorems;
mod ticks;
pub mod train;
