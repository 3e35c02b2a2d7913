//! The plain body of what goes over all moments: each moment is read anew.
//!
//! Started with the path of a database, the program prints the totals of each moment, and then what `carve at=all` prints. No
//! command uses it: the repository's own check compares with it what the commands print that go over all moments at the price
//! of what changes.
#![tactic(auto)]

mod candidates;
mod evidence;
mod totals;

use crate::candidates::put_candidates;
use crate::evidence::{Files, load_files};
use crate::totals::put_totals;
use std::{env, io};
use sx_edge::DiskStore;
use sx_header::read_header;
use sx_moment::{Case, Evidence};

fn main(rt: HostRuntime) -> io::Result<()> {
    let mut words = env::args(&rt)?;
    let _program = words.next();
    let Some(name) = words.next() else {
        return println!(rt; "usage: sx_plain DATABASE");
    };
    let alloc = rt.alloc();
    let mut store = DiskStore::new(rt);
    match load_files(alloc, &mut store, name.as_str())? {
        Some(files) => put_all(&rt, &files),
        None => println!(rt; "the files can't be read, or are too large"),
    }
}

// Prints the totals of each moment and the candidates under all of them.
fn put_all<R: Print + AllocGlobal>(rt: &R, files: &Files) -> io::Result<()> {
    let Ok(header) = read_header(files.database()) else {
        return println!(rt; "no header is accepted");
    };
    let evidence = Evidence {
        database: files.database(),
        wal: files.wal(),
        journal: files.journal(),
    };
    let case = Case::gather(rt.alloc(), header, evidence)?;
    put_totals(rt, &case)?;
    put_candidates(rt, &case)
}
