//! A store in memory.
ghost use Rattle.std.specs.Prelude.{◌≡◌, ◌+◌, ◌<◌, ◌≤◌, ◌^◌, false, [], length, drop, position, string_bytes, IsTrue, IsOk, IfOk, IfSome, Some};
ghost use Rattle.std.specs.List.{list_any};
ghost use Rattle.std.specs.Str.{bytes_eq};
ghost use Rattle.std.specs.Io.{ReadsAtMost};
ghost use Rattle.std.specs.Io.KnownBytes.{ReadConsumes};
ghost use Rattle.sx_base.specs.Causes.{HasCause};
ghost use Rattle.sx_edge.specs.Store.{Starts, answers_absent, given_after};
ghost use Rattle.sx_edge.specs.Shelf.{files_of, names_differ, new_shelf, number_of, bytes_left, is_start_barred, is_read_barred, reach, StartsFile, ReadsFile};

use crate::trip::{any_bars_read, any_bars_start, nearest};
use crate::{Store, Trip};
use std::marker::Model;
use sx_base::Failed;

/// A store in memory, of files that are numbered from 0. It fails at the trips that are built into it, and nowhere else.
#[derive(Drop)]
pub struct Shelf {
    files: Vec<(String, Vec<u8>)>,
    most: usize,
    trips: Vec<Trip>,
    started: Option<usize>,
    at: usize,
    faults: u64,
    absent: bool,
    given: u64,
}

impl Model for Shelf {
    ghost use Rattle.std.specs.Prelude.{◌≤◌, ◌<◌, length};
    ghost use Rattle.std.specs.Option.{ForSome};
    ghost use Rattle.sx_edge.specs.Shelf.{ShelfState, files_of, bytes_of};

    ghost Value = { ShelfState };

    ghost view = { λ shelf. record {
      files = files_of shelf.files.items;
      most = shelf.most;
      trips = shelf.trips.items;
      started = shelf.started;
      at = shelf.at;
      faults = shelf.faults;
      absent = shelf.absent;
      given = shelf.given;
    } };

    ghost invariant = { λ shelf. record {
      some : 1 ≤ shelf.most;
      held : ForSome shelf.started (λ number. number < length shelf.files.items);
      within : shelf.at ≤ length (bytes_of (files_of shelf.files.items) shelf.started);
    } };
}

/// Whether no two of the files have the same name. It compares each name with those behind it.
#[tactic(auto, using(crate::proofs::Shelves::names_differ_after), unfolding(crate::specs::Shelf::names_differ))]
pub fn names_differ(files: &[(String, Vec<u8>)]) -> bool
    ensures { result ≡ names_differ (files_of files.now) }
{
    let mut rest = files;
    while let Some((first, after)) = rest.split_first() {
        if is_among(after, first.0.as_str()) {
            return false;
        }
        rest = after;
    }
    true
}

// Whether one of the files has that name.
fn is_among(files: &[(String, Vec<u8>)], name: &str) -> bool
    ensures { result ≡ list_any (λ file. bytes_eq (string_bytes file.0) name.now) files.now }
{
    files.iter().any(|(file, _)| file.as_str() == name)
}

// The place of the first file of that name.
fn place_of(files: &[(String, Vec<u8>)], name: &str) -> Option<usize>
    ensures place { result ≡ position (λ file. bytes_eq (string_bytes file.0) name.now) files.now }
    ensures within { IfSome result (λ place. place < length files.now) }
{
    files.iter().position(|(file, _)| file.as_str() == name)
}

impl Shelf {
    /// A shelf with these files, of which one read gives `most` bytes at most, and with these failures built in.
    pub fn new(files: Vec<(String, Vec<u8>)>, most: usize, trips: Vec<Trip>) -> Shelf
        requires names_differ { IsTrue (names_differ (files_of files.items)) }
        requires some { 1 ≤ most }
        ensures { result ≡ new_shelf (files_of files.items) most trips.items }
    {
        Shelf {
            files,
            most,
            trips,
            started: None,
            at: 0,
            faults: 0,
            absent: false,
            given: 0,
        }
    }

    // The number of the first file of that name.
    #[tactic(auto, using(crate::proofs::Shelves::number_at))]
    fn number_of(&self, name: &str) -> Option<usize>
        ensures number { result ≡ number_of self.now.files name.now }
        ensures within { IfSome result (λ number. number < length self.now.files) }
    {
        place_of(&self.files, name)
    }

    // Whether a start of the file of this number fails.
    fn is_start_barred(&self, number: usize) -> bool
        ensures { result ≡ is_start_barred self.now number }
    {
        any_bars_start(&self.trips, number)
    }

    // Whether a read at the place of the next byte fails.
    fn is_read_barred(&self) -> bool
        ensures { result ≡ is_read_barred self.now }
    {
        any_bars_read(&self.trips, self.started, self.at)
    }

    // The bytes left of the started file.
    fn bytes_left(&self) -> &[u8]
        ensures bytes { result.now ≡ bytes_left self.now }
        ensures fits { self.now.at + length result.now < 2 ^ 64 }
    {
        match self.started {
            Some(number) => &self.files[number].1[self.at..],
            None => &[],
        }
    }

    // How many bytes a read into that much room gives.
    #[tactic(auto, using(crate::proofs::Shelves::least_within, crate::proofs::Shelves::least_moves))]
    fn reach(&self, room: usize) -> usize
        ensures reach { result ≡ reach self.now room }
        ensures within { (result ≤ room) × (result ≤ length (bytes_left self.now)) }
        ensures moves { is_read_barred self.now ≡ false → 0 < room → 0 < length (bytes_left self.now) → 0 < result }
    {
        let most = room.min(self.most.min(self.bytes_left().len()));
        nearest(&self.trips, self.started, self.at, most)
    }
}

impl Store for Shelf {
    ghost contents = { λ shelf. Some shelf.files };

    ghost left = { λ shelf. Some (bytes_left shelf) };

    ghost faults = { λ shelf. shelf.faults };

    ghost absent = { λ shelf. shelf.absent };

    ghost given = { λ shelf. shelf.given };

    #[tactic(auto, using(crate::proofs::Shelves::named, crate::proofs::Shelves::unnamed))]
    /// Starts the first file of that name. Fails exactly where there is one and a trip makes its starts fail.
    fn start(&mut self, name: &str) -> Result<bool, Failed>
        ensures starts { StartsFile self.old self.new (number_of self.old.files name.now) result }
        ensures calm { self.old.trips ≡ [] → IsOk result }
        ensures contents { Some self.new.files ≡ Some self.old.files }
        ensures left { Starts (Some self.old.files) name.now (Some (bytes_left self.new)) result }
        ensures absent { self.new.absent ≡ answers_absent result }
        ensures given { self.new.given ≡ 0 }
        ensures cause { HasCause self.old.faults self.new.faults result }
    {
        let found = self.number_of(name);
        self.started = None;
        self.at = 0;
        self.absent = found.is_none();
        self.given = 0;
        let Some(number) = found else {
            return Ok(false);
        };
        if self.is_start_barred(number) {
            self.faults = self.faults.saturating_add(1);
            return Err(Failed);
        }
        self.started = found;
        Ok(true)
    }

    /// Gives as many bytes as `buf` has, one read gives, are left and stand before the next place at which a trip makes
    /// reads fail. Fails exactly where the next byte stands at such a place.
    fn read(&mut self, buf: &mut [u8]) -> Result<usize, Failed>
        ensures reads { ReadsFile self.old self.new (length buf.old) result }
        ensures calm { self.old.trips ≡ [] → IsOk result }
        ensures contents { Some self.new.files ≡ Some self.old.files }
        ensures bound { ReadsAtMost result buf.new }
        ensures bytes { ReadConsumes (Some (bytes_left self.old)) (Some (bytes_left self.new)) result buf.new }
        ensures rest { IfOk result (λ n. drop n buf.new ≡ drop n buf.old) }
        ensures absent { self.new.absent ≡ self.old.absent }
        ensures given { self.new.given ≡ given_after self.old.given result }
        ensures cause { HasCause self.old.faults self.new.faults result }
    {
        if self.is_read_barred() {
            self.faults = self.faults.saturating_add(1);
            return Err(Failed);
        }
        let n = self.reach(buf.len());
        buf[..n].copy_from_slice(&self.bytes_left()[..n]);
        self.at += n;
        self.given = self.given.saturating_add(n as u64);
        Ok(n)
    }
}
