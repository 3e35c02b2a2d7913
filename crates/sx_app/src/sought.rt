//! The table of a name, as long as the schema that has it is the same.
ghost use Rattle.std.specs.Prelude.{◌≡◌, IfOk, IfErr, Result};
ghost use Rattle.std.specs.Option.{option_map};
ghost use Rattle.sx_schema.specs.Given.{entries_by};
ghost use Rattle.sx_app.specs.GivenTables.{table_by};
ghost use Rattle.sx_app.specs.Owed.{Gives};
ghost use Rattle.sx_app.specs.Sought.{shared_by};
ghost use Rattle.sx_app.specs.Tables.{MayLack, Table as Described, table_in};
ghost use Rattle.sx_app.specs.declared.refused.Refused.{Refused};

use crate::refused::Refused;
use crate::tables::{Table, table_in};
use std::alloc::{AllocError, Global};
use std::rc::Rc;
use sx_schema::Schema;
use sx_show_text::Columns;

/// A table, whose columns the moments share at which they are the same.
#[derive(Drop)]
pub struct SharedTable {
    pub root: u32,
    pub columns: Rc<Option<Columns>>,
}

impl SharedTable {
    /// The table, to be shared.
    pub fn new(alloc: Global, table: Table) -> Result<Self, AllocError>
        ensures { IfOk result (λ shared. shared_by shared ≡ table_by table) }
    {
        let columns = Rc::new(alloc, table.columns)?;
        Ok(SharedTable {
            root: table.root,
            columns,
        })
    }

    /// The same table, for another moment.
    fn again(&self) -> Result<Self, AllocError>
        ensures { IfOk result (λ shared. shared_by shared ≡ shared_by self.now) }
    {
        let columns = self.columns.clone()?;
        Ok(SharedTable {
            root: self.root,
            columns,
        })
    }
}

/// What a schema has under a name: a table, or why there is none.
pub fn sought_in(
    alloc: Global,
    schema: &Schema,
    name: &str,
) -> Result<Result<SharedTable, Refused>, AllocError>
    ensures told { IfOk result (λ found. Gives shared_by found (table_in (entries_by schema.now) name.now)) }
    ensures may { IfOk result (λ found. IfErr found MayLack) }
{
    match table_in(alloc, schema, name.as_bytes()) {
        Ok(table) => {
            let shared = SharedTable::new(alloc, table)?;
            Ok(Ok(shared))
        }
        Err(Refused::Memory) => Err(AllocError),
        Err(refused) => Ok(Err(refused)),
    }
}

/// What was found, once more.
pub fn found_again(found: &Result<SharedTable, Refused>) -> Result<SharedTable, Refused>
    ensures told { (given : Result Described Refused) → Gives shared_by found.now given → Gives shared_by result given }
    ensures may { IfErr found.now MayLack → IfErr result MayLack }
{
    match found {
        Ok(table) => Ok(table.again()?),
        Err(refused) => Err(*refused),
    }
}
