use super::*;
use crate::retry::read_retrying;
use std::alloc::{AllocError, Global};
use std::io::{ErrorKind, Read, Write};
use std::process::Abort;
use std::test::Fail;
use std::{fs, io};
use sx_base::Failed;

const LETTERS: &[u8; 10] = b"abcdefghij";

// A shelf with three files, of which the second is empty.
fn shelf(rt: &impl Abort, alloc: Global, most: usize, trips: &[Trip]) -> Result<Shelf, AllocError> {
    let mut files = Vec::new(alloc);
    files.push((String::from_str(alloc, "letters")?, LETTERS.to_vec(alloc)?))?;
    files.push((String::from_str(alloc, "empty")?, Vec::new(alloc)))?;
    files.push((String::from_str(alloc, "digits")?, b"0123".to_vec(alloc)?))?;
    assert!(rt; most >= 1);
    assert!(rt; names_differ(&files));
    Ok(Shelf::new(files, most, trips.to_vec(alloc)?))
}

#[test]
fn a_shelf_gives_its_files_whole(rt: HostRuntime) -> Result<(), Fail> {
    let alloc = rt.alloc();
    for most in [1, 3, 70_000] {
        let mut store = shelf(&rt, alloc, most, &[])?;
        let letters = load(alloc, &mut store, "letters")?.ok_or("none")?;
        assert_eq!(rt; letters.as_slice(), LETTERS.as_slice());
        assert!(rt; load(alloc, &mut store, "empty")?.ok_or("none")?.is_empty());
        assert!(rt; load(alloc, &mut store, "letter")?.is_none());
    }
    Ok(())
}

#[test]
fn a_shelf_fails_at_its_trips_alone(rt: HostRuntime) -> Result<(), Fail> {
    let alloc = rt.alloc();
    for (trip, letters, empty, digits) in [
        (Trip::Start(0), false, true, true),
        (Trip::Read(0, 10), false, true, true),
        (Trip::Read(0, 11), true, true, true),
        (Trip::Read(1, 0), true, false, true),
        (Trip::Start(2), true, true, false),
    ] {
        let mut store = shelf(&rt, alloc, 3, &[trip])?;
        assert_eq!(rt; load(alloc, &mut store, "letters").is_ok(), letters);
        assert_eq!(rt; load(alloc, &mut store, "empty").is_ok(), empty);
        assert_eq!(rt; load(alloc, &mut store, "digits").is_ok(), digits);
    }
    Ok(())
}

#[test]
fn a_trip_lets_the_bytes_before_it_be_read(rt: HostRuntime) -> Result<(), Fail> {
    let mut store = shelf(&rt, rt.alloc(), 3, &[Trip::Read(0, 4)])?;
    let mut buf = [0; 8];
    assert_eq!(rt; store.start("letters"), Ok(true));
    assert_eq!(rt; store.read(&mut buf), Ok(3));
    assert_eq!(rt; store.read(&mut buf), Ok(1));
    assert_eq!(rt; &buf, b"dbc\0\0\0\0\0");
    assert_eq!(rt; store.read(&mut buf), Err(Failed));
    assert_eq!(rt; store.read(&mut buf), Err(Failed));
    Ok(())
}

#[test]
fn a_tray_takes_what_it_has_room_for(rt: HostRuntime) -> Result<(), Fail> {
    let alloc = rt.alloc();
    for most in [1, 4, 100] {
        for room in 0usize..=11 {
            let mut sink = Tray::new(alloc, room, most)?;
            assert_eq!(rt;
                put_all(&mut sink, LETTERS).is_ok(),
                room >= 10,
                "{room}, {most} at once"
            );
            assert_eq!(rt;
                sink.taken(),
                &LETTERS[..room.min(10)],
                "{room}, {most} at once"
            );
        }
    }
    assert!(rt; Tray::new(alloc, usize::MAX, 1).is_err());
    Ok(())
}

#[test]
fn real_files_are_loaded(rt: HostRuntime) -> Result<(), Fail> {
    let alloc = rt.alloc();
    let mut written = vec![in alloc; 0; 200_000]?;
    for (place, byte) in written.iter_mut().enumerate() {
        *byte = (place % 251) as u8;
    }
    fs::write(&rt, "evidence", &written)?;
    fs::create_dir(&rt, "folder")?;
    let mut store = DiskStore::new(&rt);
    let file = load(alloc, &mut store, "evidence")?.ok_or("none")?;
    assert_eq!(rt; file.as_slice(), written.as_slice());
    assert!(rt; load(alloc, &mut store, "evidence-wal")?.is_none());
    for name in ["evidence/inside", "folder", "evi\0dence"] {
        let refused = load(alloc, &mut store, name).err();
        assert_eq!(rt; refused, Some(LoadRefused::ReadFault), "{name}");
    }
    fs::remove_file(&rt, "evidence")?;
    fs::remove_dir(&rt, "folder")?;
    Ok(())
}

#[test]
fn a_real_stream_is_written(rt: HostRuntime) -> Result<(), Fail> {
    let alloc = rt.alloc();
    let mut sink = StreamSink::new(fs::create(&rt, "answer")?);
    assert_eq!(rt; put_all(&mut sink, LETTERS), Ok(()));
    assert_eq!(rt; put_all(&mut sink, b""), Ok(()));
    assert_eq!(rt; put_all(&mut sink, b"klm"), Ok(()));
    let text = fs::read(&rt, "answer")?;
    assert_eq!(rt; text.as_slice(), b"abcdefghijklm".as_slice());
    // A file that was opened to be read alone takes nothing.
    let mut closed = StreamSink::new(fs::open(&rt, "answer")?);
    assert_eq!(rt; put_all(&mut closed, b"n"), Err(Failed));
    fs::remove_file(&rt, "answer")?;
    Ok(())
}

// A reader and a writer of which some first calls are interrupted.
#[derive(Drop)]
struct Interrupted {
    reads: u32,
    writes: u32,
    flushes: u32,
    // How many bytes one write takes.
    takes: usize,
    // What a flush answers after its interruptions.
    flush_fails: bool,
}

fn interrupt(calls: &mut u32) -> io::Result<()> {
    if *calls == 0 {
        return Ok(());
    }
    *calls -= 1;
    Err(io::Error::from(ErrorKind::Interrupted))
}

impl Read for Interrupted {
    fn read(&mut self, buf: &mut [u8]) -> io::Result<usize> {
        interrupt(&mut self.reads)?;
        Ok(buf.len())
    }
}

impl Write for Interrupted {
    fn write(&mut self, buf: &[u8]) -> io::Result<usize> {
        interrupt(&mut self.writes)?;
        Ok(buf.len().min(self.takes))
    }

    fn flush(&mut self) -> io::Result<()> {
        interrupt(&mut self.flushes)?;
        if self.flush_fails {
            return Err(io::Error::from(ErrorKind::BrokenPipe));
        }
        Ok(())
    }
}

#[test]
fn interrupted_calls_are_tried_a_thousand_times_again(rt: HostRuntime) {
    for (writes, flushes, takes, flush_fails, want) in [
        (0, 0, 2, false, Ok(2)),
        (1_000, 1_000, 9, false, Ok(3)),
        (1_001, 0, 9, false, Err(Failed)),
        (0, 1_001, 9, false, Err(Failed)),
        (0, 0, 0, false, Err(Failed)),
        (0, 0, 9, true, Err(Failed)),
    ] {
        let stream = Interrupted {
            reads: 0,
            writes,
            flushes,
            takes,
            flush_fails,
        };
        assert_eq!(rt;
            StreamSink::new(stream).write(b"abc"),
            want,
            "{writes} {flushes} {takes}"
        );
    }
    for (reads, want) in [(1_000, true), (1_001, false)] {
        let mut file = Interrupted {
            reads,
            writes: 0,
            flushes: 0,
            takes: 0,
            flush_fails: false,
        };
        assert_eq!(rt;
            read_retrying(&mut file, &mut [0; 4]).is_ok(),
            want,
            "{reads}"
        );
    }
}
