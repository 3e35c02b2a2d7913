//! The table that the words ask for.
ghost use Rattle.std.specs.Prelude.{◌≡◌, ◌++◌, ◌∷◌, [], map, Ok, IfOk, IfErr, OnOk};
ghost use Rattle.std.specs.Option.{option_map};
ghost use Rattle.sx_show_text.specs.Given.{columns_by};
ghost use Rattle.sx_schema.specs.Entries.{schema_of};
ghost use Rattle.sx_schema.specs.GivenEntries.{entry_by};
ghost use Rattle.sx_schema.specs.Given.{entries_by};
ghost use Rattle.sx_moment.specs.Gathered.{size_at};
ghost use Rattle.sx_moment.specs.Heads.{encoding_at, layout_of};
ghost use Rattle.sx_moment.specs.Views.{view_of};
ghost use Rattle.sx_show_text.specs.Show.{show_lines};
ghost use Rattle.sx_app.specs.GivenTables.{table_by};
ghost use Rattle.sx_app.specs.Owed.{Gives};
ghost use Rattle.sx_app.specs.Tables.{entry_table, is_schema_name, root_in, schema_columns, schema_table, columns_in, table_in, table_lines, table_named, MayLack};

use crate::refused::Refused;
use std::alloc::{AllocError, Global};
use sx_base::Moment;
use sx_ddl::{DdlRefused, read_table};
use sx_moment::Snapshot;
use sx_schema::{Entry, Schema, schema};
use sx_show_text::{Columns, ShowLines};

/// A table: the root page of its tree, and its columns, where its text gives them.
#[derive(Drop)]
pub struct Table {
    pub root: u32,
    pub columns: Option<Columns>,
}

/// The lines of `show` over the pages of a moment. `Unreadable` comes exactly where the moment's page 1 is no header, then
/// `NoTable` where its schema has no table of that name, and then `NoTree` where the table's root is no page number.
#[tactic(auto, unfolding(crate::specs::Tables::table_lines))]
pub fn show_lines<'p, 'c, 'a>(
    alloc: Global,
    snapshot: &'p Snapshot<'c, 'a>,
    moment: Moment,
    name: &str,
) -> Result<ShowLines<'p, 'a, Snapshot<'c, 'a>>, Refused>
    requires { moment ≡ snapshot.now.moment }
    ensures told { Gives (λ lines. lines) result (table_lines snapshot.now.case.now snapshot.now.moment name.now) }
    ensures may { IfErr result MayLack }
{
    if snapshot.head().is_none() {
        return Err(Refused::Unreadable(moment));
    }
    let table = table_named(alloc, snapshot, name)?;
    lines_of(alloc, snapshot, table)
}

/// The lines of a table.
fn lines_of<'p, 'c, 'a>(
    alloc: Global,
    snapshot: &'p Snapshot<'c, 'a>,
    table: Table,
) -> Result<ShowLines<'p, 'a, Snapshot<'c, 'a>>, Refused>
    ensures told { Gives (λ lines. lines) result (Ok (show_lines (size_at snapshot.now.case.now snapshot.now.moment) (view_of snapshot.now.case.now snapshot.now.moment) (layout_of snapshot.now.case.now snapshot.now.moment).usable (encoding_at snapshot.now.case.now snapshot.now.moment) (table_by table).root (table_by table).columns)) }
    ensures may { IfErr result MayLack }
{
    let layout = snapshot.layout();
    let encoding = snapshot.encoding();
    let lines = ShowLines::new(
        alloc,
        snapshot,
        layout.usable,
        encoding,
        table.root,
        table.columns,
    )?;
    Ok(lines)
}

/// The table of a name.
#[tactic(auto, unfolding(crate::specs::Tables::table_named))]
pub fn table_named(alloc: Global, snapshot: &Snapshot<'_, '_>, name: &str) -> Result<Table, Refused>
    ensures told { Gives table_by result (table_named snapshot.now.case.now snapshot.now.moment name.now) }
    ensures may { IfErr result MayLack }
{
    if is_schema_name(name.as_bytes()) {
        return schema_table(alloc);
    }
    let schema = schema_at(alloc, snapshot)?;
    table_in(alloc, &schema, name.as_bytes())
}

/// Whether it is one of the two names of the table that holds the schema.
pub fn is_schema_name(name: &[u8]) -> bool
    ensures { result ≡ is_schema_name name.now }
{
    name.eq_ignore_ascii_case(b"sqlite_schema") || name.eq_ignore_ascii_case(b"sqlite_master")
}

/// The table that holds the schema.
#[tactic(auto, unfolding(crate::specs::Tables::schema_table))]
pub fn schema_table(alloc: Global) -> Result<Table, Refused>
    ensures told { Gives table_by result (Ok schema_table) }
    ensures may { IfErr result MayLack }
{
    let names = schema_names(alloc)?;
    Ok(Table {
        root: 1,
        columns: Some(Columns { names, alias: None }),
    })
}

/// The names of its columns.
fn schema_names(alloc: Global) -> Result<Vec<Vec<u8>>, AllocError>
    ensures { IfOk result (λ names. map (λ name. name.items) names.items ≡ schema_columns) }
{
    let mut names = Vec::new(alloc);
    add_name(alloc, b"type", &mut names)?;
    add_name(alloc, b"name", &mut names)?;
    add_name(alloc, b"tbl_name", &mut names)?;
    add_name(alloc, b"rootpage", &mut names)?;
    add_name(alloc, b"sql", &mut names)?;
    Ok(names)
}

/// Adds a name.
fn add_name(alloc: Global, name: &[u8], names: &mut Vec<Vec<u8>>) -> Result<(), AllocError>
    ensures { OnOk result (map (λ name. name.items) names.new.items ≡ map (λ name. name.items) names.old.items ++ name.now ∷ []) }
{
    let name = Vec::from_slice(alloc, name)?;
    names.push(name)?;
    Ok(())
}

/// The schema of a moment.
pub fn schema_at(alloc: Global, snapshot: &Snapshot<'_, '_>) -> Result<Schema, AllocError>
    ensures { IfOk result (λ schema. entries_by schema ≡ schema_of (size_at snapshot.now.case.now snapshot.now.moment) (view_of snapshot.now.case.now snapshot.now.moment) (layout_of snapshot.now.case.now snapshot.now.moment).usable (encoding_at snapshot.now.case.now snapshot.now.moment)) }
{
    let layout = snapshot.layout();
    schema(alloc, snapshot, layout.usable, snapshot.encoding())
}

/// The first table of a name in a schema.
#[tactic(auto, unfolding(crate::specs::Tables::table_in))]
pub fn table_in(alloc: Global, schema: &Schema, name: &[u8]) -> Result<Table, Refused>
    ensures told { Gives table_by result (table_in (entries_by schema.now) name.now) }
    ensures may { IfErr result MayLack }
{
    let Some(place) = schema.table(name) else {
        return Err(Refused::NoTable);
    };
    match schema.entries().get(place as usize) {
        Some(entry) => entry_table(alloc, entry),
        None => Err(Refused::NoTable),
    }
}

/// The table of an entry.
fn entry_table(alloc: Global, entry: &Entry) -> Result<Table, Refused>
    ensures told { Gives table_by result (entry_table (entry_by entry.now)) }
    ensures may { IfErr result MayLack }
{
    let root = root_in(entry.root)?;
    let columns = columns_in(alloc, &entry.sql)?;
    Ok(Table { root, columns })
}

/// The root page that an entry names.
#[tactic(auto, unfolding(crate::specs::Tables::root_in))]
fn root_in(root: Option<i64>) -> Result<u32, Refused>
    ensures told { result ≡ root_in root }
    ensures may { IfErr result MayLack }
{
    match root {
        Some(number) if 1 <= number && number <= 4_294_967_295 => Ok(number as u32),
        _ => Err(Refused::NoTree),
    }
}

/// The columns that a table's text gives.
#[tactic(auto, unfolding(crate::specs::Tables::columns_in))]
fn columns_in(alloc: Global, sql: &Option<Vec<u8>>) -> Result<Option<Columns>, AllocError>
    ensures { IfOk result (λ columns. option_map columns_by columns ≡ columns_in (option_map (λ sql. sql.items) sql.now)) }
{
    let Some(sql) = sql else {
        return Ok(None);
    };
    match read_table(alloc, sql.as_slice()) {
        Ok(shape) => Ok(Some(Columns {
            names: shape.names,
            alias: shape.alias,
        })),
        Err(DdlRefused::Memory) => Err(AllocError),
        Err(_) => Ok(None),
    }
}
