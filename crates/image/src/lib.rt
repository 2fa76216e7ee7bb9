//! Plan images: checked, read into a train and a plan, written from them, and judged.

#![tactic(auto)]

pub mod check;
pub mod fill;
pub mod frames;
pub mod outcome;
pub mod parts;
pub mod read;
mod read_task;
mod records;
pub mod verdict;
pub mod write;
