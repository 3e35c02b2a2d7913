//! A store over the system's files.
ghost use Rattle.std.specs.Prelude.{◌≡◌, drop, IfOk, None};
ghost use Rattle.std.specs.Io.{ReadsAtMost};
ghost use Rattle.std.specs.Io.KnownBytes.{ReadConsumes};
ghost use Rattle.sx_edge.specs.Adapters.{new_disk};

use crate::Store;
use crate::retry::{open_retrying, read_retrying};
use std::io;
use std::io::{ErrorKind, Read};
use std::marker::Model;
use std::rt::Files;
use sx_base::Failed;

// The most that one read gives, in bytes.
const PIECE: usize = 65_536;

/// A store over the system's files: each name is a path, and is opened to be read alone.
///
/// A name that isn't found is absent. Any other failure to open it is a fault: a path through a file, want of rights,
/// want of memory. A folder opens, and fails to read. A call that is interrupted is tried again, at most 1,000 times in a
/// row.
///
/// It tells no contents, since they may change at any time.
#[derive(Drop)]
pub struct DiskStore<R: Files + Drop> {
    files: R,
    file: Option<R::File>,
    faults: u64,
    absent: bool,
    given: u64,
}

impl<R: Files + Drop> Model for DiskStore<R> {
    ghost use Rattle.sx_edge.specs.Adapters.{DiskState, left_of};

    ghost Value = { DiskState };

    ghost view = { λ disk. record {
      left = left_of R.File.remaining disk.file;
      faults = disk.faults;
      absent = disk.absent;
      given = disk.given;
    } };
}

impl<R: Files + Drop> DiskStore<R> {
    /// A store over these files, of which none is open.
    pub fn new(files: R) -> DiskStore<R>
        ensures { result ≡ new_disk }
    {
        DiskStore {
            files,
            file: None,
            faults: 0,
            absent: false,
            given: 0,
        }
    }
}

// Reads to the front of `buf`, and leaves the rest of it as it was.
fn read_front<F: Read>(file: &mut F, buf: &mut [u8]) -> io::Result<usize>
    ensures bound { ReadsAtMost result buf.new }
    ensures bytes { ReadConsumes (F.remaining file.old) (F.remaining file.new) result buf.new }
    ensures rest { IfOk result (λ n. drop n buf.new ≡ drop n buf.old) }
{
    let mut piece = [0; PIECE];
    let most = buf.len().min(PIECE);
    let n = read_retrying(file, &mut piece[..most])?;
    buf[..n].copy_from_slice(&piece[..n]);
    Ok(n)
}

impl<R: Files + Drop> Store for DiskStore<R> {
    ghost contents = { λ _. None };

    ghost left = { λ disk. disk.left };

    ghost faults = { λ disk. disk.faults };

    ghost absent = { λ disk. disk.absent };

    ghost given = { λ disk. disk.given };

    /// Opens the file, and closes the one before. It may take memory.
    fn start(&mut self, name: &str) -> Result<bool, Failed> {
        self.file = None;
        self.absent = false;
        self.given = 0;
        match open_retrying(&self.files, name) {
            Ok(file) => {
                self.file = Some(file);
                Ok(true)
            }
            Err(error) if error.kind() == ErrorKind::NotFound => {
                self.absent = true;
                Ok(false)
            }
            Err(_) => {
                self.faults = self.faults.saturating_add(1);
                Err(Failed)
            }
        }
    }

    fn read(&mut self, buf: &mut [u8]) -> Result<usize, Failed> {
        // The proof needs the range of the count where no file is open.
        let _given = self.given;
        let Some(file) = &mut self.file else {
            return Ok(0);
        };
        match read_front(file, buf) {
            Ok(n) => {
                self.given = self.given.saturating_add(n as u64);
                Ok(n)
            }
            Err(_) => {
                self.faults = self.faults.saturating_add(1);
                Err(Failed)
            }
        }
    }
}
