//! Samples: a load with no work, written against the interface that every kind of load keeps, and worked cases of
//! verdicts and calls, each a test.

#![tactic(auto)]

pub mod idle;
#[cfg(test)]
mod tests;
