//! Reads images from standard input, each as a line in hexadecimal, and prints the line of its verdict for each. Where
//! that is yes, a second line says whether the plan, written again, gives the same bytes.
//!
//! An empty line is an image of no bytes. Where a line is no hexadecimal, the line printed for it says so.

#![tactic(auto)]

mod back;
mod line;

use crate::back::comes_back;
use crate::line::bytes_in;
use image::outcome::Outcome;
use image::verdict::verdict;
use std::io;
use std::io::{BufRead, BufReader};

/// Prints what is to be said of one image.
fn report(rt: &HostRuntime, image: &[u8]) -> io::Result<()> {
    let outcome = verdict(image);
    rt.print(outcome)?;
    if let Outcome::Yes(_) = outcome {
        let not = if comes_back(image) == Ok(true) {
            ""
        } else {
            "not "
        };
        println!(rt; "{not}written back")?;
    }
    Ok(())
}

fn main(rt: HostRuntime) -> io::Result<()> {
    let heap = rt.alloc();
    for line in BufReader::new(heap, rt.stdin())?.lines(heap) {
        match bytes_in(heap, line?.as_bytes())? {
            Some(image) => report(&rt, image.as_slice())?,
            None => println!(rt; "bad line")?,
        }
    }
    Ok(())
}
