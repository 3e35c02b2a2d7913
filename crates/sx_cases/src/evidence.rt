//! The files of a case.

use crate::case::Named;
use std::alloc::Global;
use std::rt::Files;
use std::{fs, io};

/// The files of a store, read from the folder that the program runs in.
pub fn load_files<R: Files + AllocGlobal>(
    rt: &R,
    files: &[Named],
) -> io::Result<Vec<(String, Vec<u8>)>> {
    let mut loaded = Vec::new(rt.alloc());
    for file in files {
        let name = file.name.clone()?;
        let bytes = fs::read(rt, file.bytes.as_str())?;
        loaded.push((name, bytes))?;
    }
    Ok(loaded)
}
