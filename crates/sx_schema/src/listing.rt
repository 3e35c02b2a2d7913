//! The entries of a schema.
ghost use Rattle.std.specs.Prelude.{◌≡◌, ◌++◌, ◌^◌, ◌<◌, ◌≤◌, List, length, filter, IfOk, OnOk};
ghost use Rattle.std.specs.Option.{option_to_list};
ghost use Rattle.sx_schema.specs.Entries.{is_some_root, is_table_named, roots_of, schema_of, table_at};
ghost use Rattle.sx_schema.specs.GivenEntries.{all_by, entry_by};

use crate::entry::Entry;
use std::alloc::{AllocError, Global};

/// The entries of a moment's schema, in the order in which its rows stand.
#[derive(Drop)]
pub struct Schema {
    entries: Vec<Entry>,
    roots: Vec<i64>,
    ghost few: { length entries.items < 2 ^ 32 },
    ghost rooted: { roots.items ≡ roots_of (all_by entries.items) },
}

/// The roots of entries other than 0.
#[tactic(auto, unfolding(crate::specs::Entries::roots_of), using(crate::proofs::Roots::roots_more))]
fn roots_of(alloc: Global, entries: &[Entry]) -> Result<Vec<i64>, AllocError>
    ensures { IfOk result (λ roots. roots.items ≡ roots_of (all_by entries.now)) }
{
    let mut roots = Vec::new(alloc);
    for place in 0..entries.len() {
        add_root(&mut roots, entries[place].root)?;
    }
    Ok(roots)
}

/// Adds a root, where there is one other than 0.
fn add_root(roots: &mut Vec<i64>, root: Option<i64>) -> Result<(), AllocError>
    ensures { OnOk result (roots.new.items ≡ roots.old.items ++ filter is_some_root (option_to_list root)) }
{
    let Some(root) = root else {
        return Ok(());
    };
    if root != 0 {
        roots.push(root)?;
    }
    Ok(())
}

impl Schema {
    ghost use Rattle.sx_schema.specs.Given.{entries_by};

    /// A schema of fewer than 4,294,967,296 entries.
    pub(crate) fn of(alloc: Global, entries: Vec<Entry>) -> Result<Self, AllocError>
        requires { length entries.items < 2 ^ 32 }
        ensures { IfOk result (λ schema. entries_by schema ≡ all_by entries.items) }
    {
        let roots = roots_of(alloc, entries.as_slice())?;
        Ok(Schema { entries, roots })
    }

    /// The entries.
    pub fn entries(&self) -> &[Entry]
        ensures { all_by result.now ≡ entries_by self.now }
    {
        self.entries.as_slice()
    }

    /// The place among the entries, from 0, of the first table of that name, and `None` exactly where there is none. Names
    /// are compared without regard to the case of ASCII letters.
    ///
    /// The cost is that of the entries' names. Takes no memory.
    #[tactic(auto, unfolding(crate::specs::Entries::table_at), using(crate::proofs::Tables::first_here, crate::proofs::Tables::first_later, crate::proofs::Tables::first_none))]
    pub fn table(&self, name: &[u8]) -> Option<u32>
        ensures { result ≡ table_at (entries_by self.now) name.now }
    {
        for place in 0..self.entries.len() {
            if is_table_named(&self.entries[place], name) {
                return Some(place as u32);
            }
        }
        None
    }

    /// The roots of the entries other than 0, in order, also where they are no page numbers.
    pub fn roots(&self) -> &[i64]
        ensures { result.now ≡ roots_of (entries_by self.now) }
    {
        self.roots.as_slice()
    }
}

/// Whether an entry is a table of that name.
fn is_table_named(entry: &Entry, name: &[u8]) -> bool
    ensures { result ≡ is_table_named name.now (entry_by entry.now) }
{
    entry.is_table && entry.name.eq_ignore_ascii_case(name)
}
