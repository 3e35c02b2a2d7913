//! The worked cases: what `examine` must print, over a store and a sink in memory.
//!
//! Run in a folder with the file `cases` and the evidence that it names, it prints a line for each difference, and at the
//! end how many cases hold.
#![tactic(auto)]

mod case;
mod evidence;
mod outcome;
mod reading;

use std::{fs, io};

/// The file of the cases.
const CASES: &str = "cases";

fn main(rt: HostRuntime) -> io::Result<()> {
    let text = fs::read_to_string(&rt, CASES)?;
    let cases = reading::read_cases(rt.alloc(), text.as_str())?;
    let mut hold = 0_usize;
    for case in &cases {
        if outcome::holds(&rt, case)? {
            hold = hold.saturating_add(1);
        }
    }
    let all = cases.len();
    println!(rt; "{hold} of {all} cases hold")
}
