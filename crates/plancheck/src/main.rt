//! Reads the first 4,096 bytes of standard input as a plan image and prints its verdict as one line.

#![tactic(auto)]

use crate::input::reading::judge_reader;
use std::io;

mod input;
mod source;
#[cfg(test)]
mod tests;

fn main(rt: HostRuntime) -> io::Result<()> {
    let outcome = judge_reader(&mut rt.stdin())?;
    rt.print(outcome)
}
