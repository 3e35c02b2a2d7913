//! The lines of `history`.
ghost use Rattle.std.specs.Prelude.{◌≡◌, ◌≢◌, Ok, IfOk, IfErr, OnOk};
ghost use Rattle.std.specs.Option.{option_map};
ghost use Rattle.sx_history_text.specs.Histories.{row_lines};
ghost use Rattle.sx_history_text.specs.Moments.{moment_rest};
ghost use Rattle.sx_moment.specs.Gathered.{size_at};
ghost use Rattle.sx_moment.specs.Heads.{encoding_at, layout_of};
ghost use Rattle.sx_moment.specs.Views.{view_of};
ghost use Rattle.sx_schema.specs.Entries.{schema_of};
ghost use Rattle.sx_words.specs.Words as words;
ghost use Rattle.sx_app.specs.GivenTables.{table_by};
ghost use Rattle.sx_app.specs.Histories.{histories_of, history_at, lack_of, table_there};
ghost use Rattle.sx_app.specs.Owed.{Gives};
ghost use Rattle.sx_app.specs.Sought.{IsSought, shared_by};
ghost use Rattle.sx_app.specs.Stages.{MayMeet, Deciding};
ghost use Rattle.sx_app.specs.Tables.{MayLack, schema_table, table_in, table_named};
ghost use Rattle.sx_app.specs.declared.refused.Refused.TheVariants.{Memory};

use crate::refused::Refused;
use crate::sought::{SharedTable, found_again, sought_in};
use crate::tables::{Table, is_schema_name, schema_table, table_named};
use std::alloc::{AllocError, Global};
use std::marker::Model;
use sx_base::Moment;
use sx_history_text::{Lack, MomentLines, RowLines, TreeHistories};
use sx_lines::Lines;
use sx_moment::{Case, Snapshot};

/// The lines of `history` that are still to come, moment by moment.
///
/// The schema and the table's tree are read anew where [`TreeHistories`] doesn't know that what it told of the moment before
/// stands; and only where the schema is read is the table looked up in it, and its text read.
#[derive(Drop)]
pub struct HistoryLines<'t, 'c, 'a> {
    alloc: Global,
    table: &'t str,
    trees: TreeHistories<'c, 'a>,
    sought: Option<Result<SharedTable, Refused>>,
    current: MomentLines<'c, 'a>,
}

impl<'t, 'c, 'a> Model for HistoryLines<'t, 'c, 'a> {
    ghost use Rattle.std.specs.Prelude.{ℕ, List};
    ghost use Rattle.sx_history_text.specs.Moments.{moment_rest};
    ghost use Rattle.sx_app.specs.HistoryRest.{histories_from};
    ghost use Rattle.sx_app.specs.Sought.{IsSought};

    ghost Value = { List (List ℕ) };

    ghost view = { λ it. histories_from (moment_rest it.current) it.table.now it.trees };

    ghost invariant = { λ it. IsSought it.trees.entries it.table.now it.sought };
}

impl<'t, 'c, 'a> HistoryLines<'t, 'c, 'a> {
    /// All lines under the name of a table and a rowid. It looks at the first moment, and answers `AllocError` where memory runs
    /// out.
    fn new(
        alloc: Global,
        case: &'c Case<'a>,
        table: &'t str,
        rowid: i64,
    ) -> Result<Self, AllocError>
        ensures { IfOk result (λ lines. lines ≡ histories_of case.entry.now table.entry.now rowid) }
    {
        let mut trees = TreeHistories::new(alloc, case, rowid)?;
        let _moment = trees.moment();
        let mut sought = None;
        let current = moment_lines(alloc, &mut trees, &mut sought, table)?;
        Ok(HistoryLines {
            alloc,
            table,
            trees,
            sought,
            current,
        })
    }
}

/// The lines of `history` under the name of a table and a rowid. The first moment is looked at before a line is written.
pub fn history_lines<'t, 'c, 'a>(
    alloc: Global,
    case: &'c Case<'a>,
    table: &'t str,
    rowid: i64,
) -> Result<HistoryLines<'t, 'c, 'a>, Refused>
    ensures told { Gives (λ lines. lines) result (Ok (histories_of case.entry.now table.entry.now rowid)) }
    ensures may { IfErr result (MayMeet (Deciding (words.History table.entry.now rowid))) }
{
    let lines = HistoryLines::new(alloc, case, table, rowid)?;
    Ok(lines)
}

impl Lines for HistoryLines<'_, '_, '_> {
    ghost lines = { λ it. it };

    fn next_line(&mut self, line: &mut String) -> Result<bool, AllocError> {
        if self.current.next_line(line)? {
            return Ok(true);
        }
        if !self.trees.next() {
            return Ok(false);
        }
        let _moment = self.trees.moment();
        self.current = moment_lines(self.alloc, &mut self.trees, &mut self.sought, self.table)?;
        let more = self.current.next_line(line)?;
        Ok(more)
    }
}

/// The lines of the moment in hand.
#[tactic(auto, unfolding(crate::specs::Histories::history_at), using(crate::proofs::AllMoments::lacks_it))]
fn moment_lines<'c, 'a>(
    alloc: Global,
    trees: &mut TreeHistories<'c, 'a>,
    sought: &mut Option<Result<SharedTable, Refused>>,
    table: &str,
) -> Result<MomentLines<'c, 'a>, AllocError>
    requires sought { IsSought trees.old.entries table.now sought.old }
    ensures lines { IfOk result (λ lines. moment_rest lines ≡ history_at trees.old.case table.now trees.old.rowid trees.old.moment) }
    ensures sought { IsSought trees.new.entries table.now sought.new }
    ensures case { trees.new.case ≡ trees.old.case }
    ensures place { trees.new.place ≡ trees.old.place }
    ensures rowid { trees.new.rowid ≡ trees.old.rowid }
{
    let moment = trees.moment();
    match table_kept(alloc, trees, sought, table) {
        Ok(table) => rows_of_table(alloc, trees, table),
        Err(refused) => {
            let lack = lack_of(refused)?;
            Ok(MomentLines::Lacking { moment, lack })
        }
    }
}

/// The table of a name at the moment in hand: what [`table_there`] finds, with what was found in the same schema where that stands.
#[tactic(auto, unfolding(crate::specs::Histories::table_there))]
fn table_kept(
    alloc: Global,
    trees: &mut TreeHistories<'_, '_>,
    sought: &mut Option<Result<SharedTable, Refused>>,
    name: &str,
) -> Result<SharedTable, Refused>
    requires sought { IsSought trees.old.entries name.now sought.old }
    ensures told { Gives shared_by result (table_there trees.old.case trees.old.moment name.now) }
    ensures may { IfErr result MayLack }
    ensures sought { IsSought trees.new.entries name.now sought.new }
    ensures case { trees.new.case ≡ trees.old.case }
    ensures place { trees.new.place ≡ trees.old.place }
    ensures moment { trees.new.moment ≡ trees.old.moment }
    ensures rowid { trees.new.rowid ≡ trees.old.rowid }
{
    let snapshot = trees.snapshot();
    let moment = trees.moment();
    if snapshot.head().is_none() {
        return Err(Refused::Unreadable(moment));
    }
    table_read(alloc, trees, sought, &snapshot, name)
}

/// The table of a name at the moment in hand, whose page 1 is a header.
#[tactic(auto, unfolding(crate::specs::Tables::table_named))]
fn table_read(
    alloc: Global,
    trees: &mut TreeHistories<'_, '_>,
    sought: &mut Option<Result<SharedTable, Refused>>,
    snapshot: &Snapshot<'_, '_>,
    name: &str,
) -> Result<SharedTable, Refused>
    requires case { snapshot.now.case.now ≡ trees.old.case }
    requires moment { snapshot.now.moment ≡ trees.old.moment }
    requires sought { IsSought trees.old.entries name.now sought.old }
    ensures told { Gives shared_by result (table_named trees.old.case trees.old.moment name.now) }
    ensures may { IfErr result MayLack }
    ensures sought { IsSought trees.new.entries name.now sought.new }
    ensures case { trees.new.case ≡ trees.old.case }
    ensures place { trees.new.place ≡ trees.old.place }
    ensures moment { trees.new.moment ≡ trees.old.moment }
    ensures rowid { trees.new.rowid ≡ trees.old.rowid }
{
    if is_schema_name(name.as_bytes()) {
        return schema_shared(alloc);
    }
    table_in_schema(alloc, trees, sought, snapshot, name)
}

/// The table that holds the schema.
fn schema_shared(alloc: Global) -> Result<SharedTable, Refused>
    ensures told { Gives shared_by result (Ok schema_table) }
    ensures may { IfErr result MayLack }
{
    let table = schema_table(alloc)?;
    let shared = SharedTable::new(alloc, table)?;
    Ok(shared)
}

/// The first table of a name in the schema of the moment in hand, whose page 1 is a header.
fn table_in_schema(
    alloc: Global,
    trees: &mut TreeHistories<'_, '_>,
    sought: &mut Option<Result<SharedTable, Refused>>,
    snapshot: &Snapshot<'_, '_>,
    name: &str,
) -> Result<SharedTable, Refused>
    requires case { snapshot.now.case.now ≡ trees.old.case }
    requires moment { snapshot.now.moment ≡ trees.old.moment }
    requires sought { IsSought trees.old.entries name.now sought.old }
    ensures told { Gives shared_by result (table_in (schema_of (size_at trees.old.case trees.old.moment) (view_of trees.old.case trees.old.moment) (layout_of trees.old.case trees.old.moment).usable (encoding_at trees.old.case trees.old.moment)) name.now) }
    ensures may { IfErr result MayLack }
    ensures sought { IsSought trees.new.entries name.now sought.new }
    ensures case { trees.new.case ≡ trees.old.case }
    ensures place { trees.new.place ≡ trees.old.place }
    ensures moment { trees.new.moment ≡ trees.old.moment }
    ensures rowid { trees.new.rowid ≡ trees.old.rowid }
{
    let before = sought.take();
    let layout = snapshot.layout();
    let kept = trees.read_schema(layout.usable, snapshot.encoding())?;
    let Some(schema) = trees.schema() else {
        unreachable!()
    };
    let found = match (before, kept) {
        (Some(found), true) => found,
        _ => sought_in(alloc, schema, name)?,
    };
    let table = found_again(&found);
    *sought = Some(found);
    table
}

/// The table of a name at a moment: `Unreadable` comes exactly where the moment's page 1 is no header, then `NoTable` where
/// its schema has no table of that name, and then `NoTree` where the table's root is no page number.
#[tactic(auto, unfolding(crate::specs::Histories::table_there))]
pub fn table_there(
    alloc: Global,
    snapshot: &Snapshot<'_, '_>,
    moment: Moment,
    name: &str,
) -> Result<Table, Refused>
    requires { moment ≡ snapshot.now.moment }
    ensures told { Gives table_by result (table_there snapshot.now.case.now snapshot.now.moment name.now) }
    ensures may { IfErr result MayLack }
{
    if snapshot.head().is_none() {
        return Err(Refused::Unreadable(moment));
    }
    table_named(alloc, snapshot, name)
}

/// What a moment lacks where looking for a table met this, unless that was want of memory.
fn lack_of(refused: Refused) -> Result<Lack, AllocError>
    ensures lack { IfOk result (λ lack. lack ≡ lack_of refused) }
    ensures memory { OnOk result (refused ≢ Memory) }
{
    match refused {
        Refused::NoTable => Ok(Lack::NoTable),
        Refused::NoTree => Ok(Lack::NoTree),
        Refused::Memory => Err(AllocError),
        _ => Ok(Lack::Unreadable),
    }
}

/// The lines of a table at the moment in hand.
fn rows_of_table<'c, 'a>(
    alloc: Global,
    trees: &mut TreeHistories<'c, 'a>,
    table: SharedTable,
) -> Result<MomentLines<'c, 'a>, AllocError>
    ensures lines { IfOk result (λ lines. moment_rest lines ≡ row_lines trees.old.moment (size_at trees.old.case trees.old.moment) (view_of trees.old.case trees.old.moment) (layout_of trees.old.case trees.old.moment).usable (encoding_at trees.old.case trees.old.moment) (shared_by table).root (shared_by table).columns trees.old.rowid) }
    ensures entries { trees.new.entries ≡ trees.old.entries }
    ensures case { trees.new.case ≡ trees.old.case }
    ensures place { trees.new.place ≡ trees.old.place }
    ensures rowid { trees.new.rowid ≡ trees.old.rowid }
{
    let snapshot = trees.snapshot();
    let moment = trees.moment();
    let usable = snapshot.layout().usable;
    let encoding = snapshot.encoding();
    let history = trees.history(usable, table.root)?;
    let lines = RowLines::new(
        alloc,
        snapshot,
        moment,
        usable,
        encoding,
        table.columns,
        history,
    );
    Ok(MomentLines::Rows(lines))
}
