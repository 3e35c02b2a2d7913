//! The items of a table's text.
ghost use Rattle.std.specs.Prelude.{◌≡◌, ◌<◌, length};
ghost use Rattle.std.specs.List.{list_any};
ghost use Rattle.sx_ddl.specs.Kinds.{is_computed};
ghost use Rattle.sx_ddl.specs.Items.{found_by, found_behind, column_behind, items_from, closed, nothing};
ghost use Rattle.sx_ddl.specs.Given.{Gives};

use crate::column::{Column, column_of};
use crate::item::{begins_closed, item_len, put_keys, put_outside, without_first};
use crate::kinds::{begins_constraint, is_computed, is_name};
use crate::refused::DdlRefused;
use crate::token::{End, Kind, Token};
use std::alloc::{AllocError, Global};

/// The columns of a table, and the names that table constraints have as their only key.
#[derive(Drop)]
pub(crate) struct Items {
    pub(crate) columns: Vec<Column>,
    pub(crate) keys: Vec<Token>,
    kinds: Vec<Kind>,
}

impl Items {
    /// No items.
    pub(crate) fn new(alloc: Global) -> Self
        ensures { found_by result ≡ nothing }
    {
        Items {
            columns: Vec::new(alloc),
            keys: Vec::new(alloc),
            kinds: Vec::new(alloc),
        }
    }

    /// Reads the items up to the parenthesis that closes the list, and answers the tokens behind it.
    pub(crate) fn read<'t>(
        &mut self,
        end: End,
        tokens: &'t [Token],
    ) -> Result<&'t [Token], DdlRefused>
        ensures { Gives (items_from end 0 (found_by self.old) tokens.now) result (λ rest. record { found = found_by self.new; rest = rest.now }) }
    {
        let mut rest = tokens;
        while !rest.is_empty() {
            let (item, behind) = rest.split_at(item_len(rest));
            match self.add(rest[0], item) {
                Ok(()) => {}
                Err(refused) => return Err(refused),
            }
            if begins_closed(behind) {
                return self.close(end, behind);
            }
            rest = without_first(behind);
        }
        Err(DdlRefused::Unknown(end.at))
    }

    #[tactic(auto, using(crate::proofs::WalkLemmas::whole))]
    /// Closes the list with the token at the front.
    fn close<'t>(&self, end: End, tokens: &'t [Token]) -> Result<&'t [Token], DdlRefused>
        ensures { Gives (closed end (found_by self.now) tokens.now) result (λ rest. record { found = found_by self.now; rest = rest.now }) }
    {
        if tokens.is_empty() {
            return Err(DdlRefused::Unknown(end.at));
        }
        if self.columns.is_empty() {
            return Err(DdlRefused::Unknown(tokens[0].at));
        }
        Ok(without_first(tokens))
    }

    /// Adds an item: a table constraint, or a column whose name comes first.
    #[tactic(auto, unfolding(crate::specs::Items::found_behind))]
    fn add(&mut self, first: Token, item: &[Token]) -> Result<(), DdlRefused>
        ensures { Gives (found_behind (found_by self.old) first item.now) result (λ added. found_by self.new) }
    {
        if !is_name(first.kind) {
            return Err(DdlRefused::Unknown(first.at));
        }
        if begins_constraint(first.kind) {
            return match put_keys(&mut self.keys, item) {
                Ok(()) => Ok(()),
                Err(_) => Err(DdlRefused::Memory),
            };
        }
        match put_outside(&mut self.kinds, without_first(item)) {
            Ok(()) => self.add_column(first),
            Err(_) => Err(DdlRefused::Memory),
        }
    }

    /// Adds the column of this name, where it isn't generated.
    #[tactic(auto, unfolding(crate::specs::Items::column_behind))]
    fn add_column(&mut self, name: Token) -> Result<(), DdlRefused>
        ensures { Gives (column_behind (found_by self.old) name self.old.kinds.items) result (λ added. found_by self.new) }
    {
        if has_computed(self.kinds.as_slice()) {
            return Err(DdlRefused::Generated);
        }
        let column = column_of(name, self.kinds.as_slice());
        match self.columns.push(column) {
            Ok(()) => Ok(()),
            Err(_) => Err(DdlRefused::Memory),
        }
    }
}

/// Whether a word begins the expression of a generated column.
fn has_computed(kinds: &[Kind]) -> bool
    ensures { result ≡ list_any is_computed kinds.now }
{
    kinds.iter().any(|kind| is_computed(*kind))
}
