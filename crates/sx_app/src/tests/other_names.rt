//! A store that fails on each name but those of the three files.
ghost use Rattle.std.specs.Prelude.{None, false};

use super::*;
use sx_base::Failed;
use sx_edge::Store;

// A store that tells nothing of its files: `a.db` is the plain database, its companions are absent, and every other name
// is a fault.
#[derive(Drop)]
struct OnlyThree {
    database: Vec<u8>,
    at: usize,
    given: u64,
    absent: bool,
    faults: u64,
}

impl Store for OnlyThree {
    ghost contents = { λ _. None };

    ghost left = { λ _. None };

    ghost faults = { λ store. store.faults };

    ghost absent = { λ store. store.absent };

    ghost given = { λ store. store.given };

    fn start(&mut self, name: &str) -> Result<bool, Failed> {
        self.given = 0;
        self.absent = false;
        match name {
            "a.db" => self.at = 0,
            "a.db-wal" | "a.db-journal" => self.absent = true,
            _ => {
                self.faults = self.faults.saturating_add(1);
                return Err(Failed);
            }
        }
        Ok(!self.absent)
    }

    fn read(&mut self, buf: &mut [u8]) -> Result<usize, Failed> {
        let _given = self.given;
        let left = self.database.get(self.at..).unwrap_or(&[]);
        let n = left.len().min(buf.len());
        buf[..n].copy_from_slice(&left[..n]);
        self.at = self.at.saturating_add(n);
        self.given = self.given.saturating_add(n as u64);
        Ok(n)
    }
}

#[test]
fn no_other_name_is_asked_for(rt: HostRuntime) -> Result<(), Fail> {
    let alloc = rt.alloc();
    let mut store = OnlyThree {
        database: plain_database(alloc)?,
        at: 0,
        given: 0,
        absent: false,
        faults: 0,
    };
    let mut out = Tray::new(alloc, 4_096, 4_096)?;
    let words = owned(alloc, &["a.db", "timeline"])?;
    let outcome = examine(alloc, words.as_slice(), &mut store, &mut out);
    assert_eq!(rt; status(&outcome), 0);
    let words = owned(alloc, &["a.db", "page", "no=2"])?;
    let outcome = examine(alloc, words.as_slice(), &mut store, &mut out);
    assert_eq!(rt; status(&outcome), 0);
    assert_eq!(rt; store.faults, 0);
    let words = owned(alloc, &["b.db", "timeline"])?;
    let outcome = examine(alloc, words.as_slice(), &mut store, &mut out);
    assert_eq!(rt; status(&outcome), 9);
    Ok(())
}
