//! A store with a file without an end.
ghost use Rattle.std.specs.Prelude.{None, false};

use super::*;
use sx_base::Failed;
use sx_edge::Store;

// A store that tells nothing of its files: `a.db` and `b.db` are the plain database, the log of `b.db` is absent, and
// every other file never ends.
#[derive(Drop)]
struct Endless {
    database: Vec<u8>,
    at: usize,
    given: u64,
    absent: bool,
}

impl Store for Endless {
    ghost contents = { λ _. None };

    ghost left = { λ _. None };

    ghost faults = { λ _. 0 };

    ghost absent = { λ store. store.absent };

    ghost given = { λ store. store.given };

    fn start(&mut self, name: &str) -> Result<bool, Failed> {
        self.at = if name == "a.db" || name == "b.db" {
            0
        } else {
            usize::MAX
        };
        self.given = 0;
        self.absent = name == "b.db-wal";
        Ok(!self.absent)
    }

    fn read(&mut self, buf: &mut [u8]) -> Result<usize, Failed> {
        let _given = self.given;
        let Some(left) = self.database.get(self.at..) else {
            buf.fill(0);
            self.given = self.given.saturating_add(buf.len() as u64);
            return Ok(buf.len());
        };
        let n = left.len().min(buf.len());
        buf[..n].copy_from_slice(&left[..n]);
        self.at += n;
        self.given = self.given.saturating_add(n as u64);
        Ok(n)
    }
}

#[test]
fn a_file_without_an_end_is_too_large(rt: HostRuntime) -> Result<(), Fail> {
    let alloc = rt.alloc();
    for (name, text) in [
        (
            "c.db",
            "refused: database is larger than 1073741824 bytes\n",
        ),
        ("a.db", "refused: wal is larger than 1073741824 bytes\n"),
        ("b.db", "refused: journal is larger than 1073741824 bytes\n"),
    ] {
        let mut store = Endless {
            database: plain_database(alloc)?,
            at: 0,
            given: 0,
            absent: false,
        };
        let mut out = Tray::new(alloc, 4_096, 4_096)?;
        let words = owned(alloc, &[name, "timeline"])?;
        let outcome = examine(alloc, words.as_slice(), &mut store, &mut out);
        assert_eq!(rt; status(&outcome), 4);
        assert_eq!(rt; out.taken(), text.as_bytes());
    }
    Ok(())
}
