//! How cases are written.

use crate::case::{Case, Named, Places};
use std::alloc::Global;
use std::io;
use sx_edge::Trip;

/// Reads all cases of a text. A line that isn't understood is an error that names it.
pub fn read_cases(alloc: Global, text: &str) -> io::Result<Vec<Case>> {
    let mut cases = Vec::new(alloc);
    for line in text.lines() {
        read_line(alloc, line, &mut cases)?;
    }
    Ok(cases)
}

// Reads a line behind those before it. The last case is the one that is being read.
fn read_line(alloc: Global, line: &str, cases: &mut Vec<Case>) -> io::Result<()> {
    if line.is_empty() || line.starts_with('#') {
        return Ok(());
    }
    let (key, rest) = line.split_once(' ').unwrap_or((line, ""));
    if key == "case" {
        cases.push(Case::new(alloc, String::from_str(alloc, rest)?))?;
        return Ok(());
    }
    let understood = match cases.last_mut() {
        Some(case) => read_part(alloc, key, rest, case)?,
        None => false,
    };
    if understood {
        Ok(())
    } else {
        not_understood(alloc, line)
    }
}

fn not_understood(alloc: Global, line: &str) -> io::Result<()> {
    let why = format!(in alloc; "the line isn't understood: {line}")?;
    Err(io::Error::new(io::ErrorKind::InvalidData, why.as_str()))
}

// Reads a part of a case, and says whether it is one.
fn read_part(alloc: Global, key: &str, rest: &str, case: &mut Case) -> io::Result<bool> {
    match key {
        "files" => read_files(alloc, rest, case)?,
        "words" => read_words(alloc, rest, case)?,
        "pieces" => return Ok(read_pieces(rest, case)),
        "room" if rest == "each" => case.each_room = true,
        "fault" => return read_fault(rest, case),
        "status" => case.status = rest.parse::<u8>().ok(),
        ">" => {
            case.text.push_str(rest)?;
            case.text.push('\n')?;
        }
        _ => return Ok(false),
    }
    Ok(true)
}

fn read_files(alloc: Global, rest: &str, case: &mut Case) -> io::Result<()> {
    for word in rest.split(' ') {
        let (name, bytes) = word.split_once('=').unwrap_or((word, word));
        case.files.push(Named {
            name: spelled(alloc, name)?,
            bytes: String::from_str(alloc, bytes)?,
        })?;
    }
    Ok(())
}

fn read_words(alloc: Global, rest: &str, case: &mut Case) -> io::Result<()> {
    for word in rest.split(' ') {
        case.words.push(spelled(alloc, word)?)?;
    }
    Ok(())
}

// A word without its escapes: `\n` is a line feed, and `\e` stands for no bytes.
fn spelled(alloc: Global, word: &str) -> io::Result<String> {
    let mut text = String::new(alloc);
    let mut escaped = false;
    for c in word.chars() {
        match (escaped, c) {
            (false, '\\') => escaped = true,
            (false, _) => text.push(c)?,
            (true, 'n') => {
                text.push('\n')?;
                escaped = false;
            }
            (true, _) => escaped = false,
        }
    }
    Ok(text)
}

fn read_pieces(rest: &str, case: &mut Case) -> bool {
    match rest.parse::<usize>() {
        Ok(pieces) => {
            case.pieces = pieces;
            true
        }
        Err(_) => false,
    }
}

// A failure of a file that the store has: at its start, where a read stands at a place, or where one stands at each place
// up to a last one.
fn read_fault(rest: &str, case: &mut Case) -> io::Result<bool> {
    let (when, behind) = rest.split_once(' ').unwrap_or((rest, ""));
    let (name, place) = behind.split_once(' ').unwrap_or((behind, "0"));
    let (each, last) = place.split_once(' ').unwrap_or(("", place));
    let (Some(file), Ok(last)) = (file_number(case, name), last.parse::<u64>()) else {
        return Ok(false);
    };
    match (when, each) {
        ("start", "") => case.faults.push(Trip::Start(file))?,
        ("read", "") => case.faults.push(Trip::Read(file, last))?,
        ("read", "each") => case.each_place = Some(Places { file, last }),
        _ => return Ok(false),
    }
    Ok(true)
}

// The number of the file of that name, as a failure names it.
fn file_number(case: &Case, name: &str) -> Option<u32> {
    match case.place(name) {
        Some(place) => u32::try_from(place).ok(),
        None => None,
    }
}
