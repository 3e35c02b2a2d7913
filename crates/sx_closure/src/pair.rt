//! Pages in their roles, and what refers to them.

ghost use Rattle.std.specs.Prelude.{◌≡◌};

use sx_base::Role;

/// A page in a role.
#[derive(Clone, Copy, Debug, PartialEq, Eq)]
pub struct Pair {
    /// The number of the page.
    pub page: u32,
    /// What it is taken for.
    pub role: Role,
}

/// Where a reference stands.
#[derive(Clone, Copy, Debug, PartialEq, Eq)]
pub enum Source {
    /// Nowhere in the pages: a root of the database.
    Root,
    /// In a cell of a b-tree page.
    Cell {
        /// The number of that page.
        page: u32,
        /// The index of the cell, from 0.
        cell: u32,
    },
    /// In the page of that number, in no cell.
    Page(u32),
}

/// What is named somewhere: a page in a role, whether the page is held or not.
#[derive(Clone, Copy, Debug, PartialEq, Eq)]
pub struct Target {
    /// The pair that is named.
    pub pair: Pair,
    /// Where it is named.
    pub source: Source,
    /// How many bytes of the cell's payload aren't in the cell, where it is named as the first overflow page of a cell
    /// ("Cell Payload Overflow Pages"); else 0.
    pub rest: u32,
}

impl Target {
    /// A page in a role that is named somewhere, with so many bytes of a payload behind the cell that names it.
    pub fn new(page: u32, role: Role, source: Source, rest: u32) -> Self
        ensures { result ≡ record { pair = record { page = page; role = role }; source = source; rest = rest } }
    {
        Target {
            pair: Pair { page, role },
            source,
            rest,
        }
    }
}
