//! The beginning of a table's text.
ghost use Rattle.std.specs.Prelude.{◌≡◌};
ghost use Rattle.sx_ddl.specs.Given.{Gives};
ghost use Rattle.sx_ddl.specs.Items.{found_by};
ghost use Rattle.sx_ddl.specs.Shapes.{listed_of, named, opened};

use crate::item::without_first;
use crate::items::Items;
use crate::kinds::{is_create, is_name, is_table, opens};
use crate::refused::DdlRefused;
use crate::token::{End, Token};

/// Reads the list of items of a text that begins with CREATE TABLE, and answers the tokens behind it.
#[tactic(auto, unfolding(crate::specs::Shapes::listed_of))]
pub(crate) fn read_list<'t>(
    items: &mut Items,
    tokens: &'t [Token],
    end: End,
) -> Result<&'t [Token], DdlRefused>
    ensures { Gives (listed_of (found_by items.old) (record { tokens = tokens.now; end = end })) result (λ rest. record { found = found_by items.new; rest = rest.now }) }
{
    if tokens.len() < 2 || !is_create(tokens[0].kind) || !is_table(tokens[1].kind) {
        return Err(DdlRefused::NotTable);
    }
    read_named(items, tokens.split_at(2).1, end)
}

/// Reads the table's name and the list behind it.
#[tactic(auto, using(crate::proofs::WalkLemmas::whole))]
fn read_named<'t>(
    items: &mut Items,
    tokens: &'t [Token],
    end: End,
) -> Result<&'t [Token], DdlRefused>
    ensures { Gives (named end (found_by items.old) tokens.now) result (λ rest. record { found = found_by items.new; rest = rest.now }) }
{
    if tokens.is_empty() {
        return Err(DdlRefused::Unknown(end.at));
    }
    if !is_name(tokens[0].kind) {
        return Err(DdlRefused::Unknown(tokens[0].at));
    }
    read_opened(items, without_first(tokens), end)
}

/// Reads the list behind its opening parenthesis.
#[tactic(auto, using(crate::proofs::WalkLemmas::whole))]
fn read_opened<'t>(
    items: &mut Items,
    tokens: &'t [Token],
    end: End,
) -> Result<&'t [Token], DdlRefused>
    ensures { Gives (opened end (found_by items.old) tokens.now) result (λ rest. record { found = found_by items.new; rest = rest.now }) }
{
    if tokens.is_empty() {
        return Err(DdlRefused::Unknown(end.at));
    }
    if !opens(tokens[0].kind) {
        return Err(DdlRefused::Unknown(tokens[0].at));
    }
    items.read(end, without_first(tokens))
}
