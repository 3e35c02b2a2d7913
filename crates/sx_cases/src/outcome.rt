//! What comes of a case.

use crate::case::{Case, Places};
use crate::evidence::load_files;
use std::io;
use std::rt::Files;
use sx_app::{examine, status};
use sx_edge::{Shelf, Tray, Trip, names_differ};

/// More room than a text needs.
const SPARE: usize = 4_096;

/// The status where the sink has no room left.
const NO_ROOM: u8 = 10;

/// Whether a case ends and prints as it is written. Prints a line for each difference.
pub fn holds<R: Files + Print + AllocGlobal>(rt: &R, case: &Case) -> io::Result<bool> {
    let Some(end) = case.status else {
        return differs(rt, case, "it has no status");
    };
    let text = case.text.as_str().as_bytes();
    if case.each_room && !each_room_holds(rt, case, text)? {
        return Ok(false);
    }
    let room = text.len().saturating_add(SPARE);
    match case.each_place {
        Some(places) => each_place_holds(rt, case, places, room, end),
        None => holds_with(rt, case, case.faults.as_slice(), room, end, text),
    }
}

// Whether the case ends so, with nothing printed, where reads fail at each of these places.
fn each_place_holds<R: Files + Print + AllocGlobal>(
    rt: &R,
    case: &Case,
    places: Places,
    room: usize,
    end: u8,
) -> io::Result<bool> {
    for place in 0..=places.last {
        let fault = Trip::Read(places.file, place);
        if !holds_with(rt, case, &[fault], room, end, &[])? {
            return Ok(false);
        }
    }
    Ok(true)
}

// Whether each room below the text's length is filled by a front of it.
fn each_room_holds<R: Files + Print + AllocGlobal>(
    rt: &R,
    case: &Case,
    text: &[u8],
) -> io::Result<bool> {
    for room in 0..text.len() {
        if !holds_with(
            rt,
            case,
            case.faults.as_slice(),
            room,
            NO_ROOM,
            &text[..room],
        )? {
            return Ok(false);
        }
    }
    Ok(true)
}

// Whether a case over a store with these failures and a sink of that room ends so, with these bytes taken.
fn holds_with<R: Files + Print + AllocGlobal>(
    rt: &R,
    case: &Case,
    faults: &[Trip],
    room: usize,
    end: u8,
    text: &[u8],
) -> io::Result<bool> {
    let files = load_files(rt, &case.files)?;
    if !names_differ(&files) {
        return differs(rt, case, "two files have one name");
    }
    let pieces = case.pieces.max(1);
    let mut store = Shelf::new(files, pieces, faults.to_vec(rt.alloc())?);
    let mut out = Tray::new(rt.alloc(), room, pieces)?;
    let ended = status(&examine(rt.alloc(), &case.words, &mut store, &mut out));
    if ended != end {
        let name = &case.name;
        println!(rt; "differs: {name}: it ends with status {ended}, not {end}")?;
        return Ok(false);
    }
    if out.taken() != text {
        return prints_another_text(rt, case, out.taken());
    }
    Ok(true)
}

// Prints what a case printed in place of its text.
fn prints_another_text<R: Print>(rt: &R, case: &Case, taken: &[u8]) -> io::Result<bool> {
    let name = &case.name;
    let taken = str::from_utf8(taken).unwrap_or("bytes that are no text");
    println!(rt; "differs: {name}: it prints\n{taken}")?;
    Ok(false)
}

// Prints what is wrong with a case.
fn differs<R: Print>(rt: &R, case: &Case, why: &str) -> io::Result<bool> {
    let name = &case.name;
    println!(rt; "differs: {name}: {why}")?;
    Ok(false)
}
