//! Columns as their text has them.
ghost use Rattle.std.specs.Prelude.{◌≡◌};
ghost use Rattle.sx_ddl.specs.Items.{begins_key, has_key, has_integer_type, continues_type, column_of};

use crate::kinds::{ends_type, is_desc, is_integer, is_key, is_primary, is_word, opens};
use crate::token::{Kind, Token};

/// A column.
#[derive(Clone, Copy, Debug, PartialEq, Eq)]
pub struct Column {
    /// The token of its name.
    pub name: Token,
    /// Whether its type is INTEGER.
    pub integer: bool,
    /// Whether it has the words PRIMARY KEY without DESC.
    pub key: bool,
}

/// The column of this name, with what follows the name outside parentheses.
pub(crate) fn column_of(name: Token, kinds: &[Kind]) -> Column
    ensures { result ≡ column_of name kinds.now }
{
    Column {
        name,
        integer: has_integer_type(kinds),
        key: has_key(kinds),
    }
}

/// Whether the type is the one word INTEGER, and no parenthesis follows.
fn has_integer_type(kinds: &[Kind]) -> bool
    ensures { result ≡ has_integer_type kinds.now }
{
    kinds.get(0).is_some_and(|kind| is_integer(*kind))
        && !kinds.get(1).is_some_and(|kind| continues_type(*kind))
        && !kinds.get(1).is_some_and(|kind| opens(*kind))
}

/// Whether a type goes on: with a word that begins no constraint.
fn continues_type(kind: Kind) -> bool
    ensures { result ≡ continues_type kind }
{
    is_word(kind) && !ends_type(kind)
}

/// Whether the words PRIMARY KEY stand here, and DESC doesn't follow.
fn begins_key(kinds: &[Kind]) -> bool
    ensures { result ≡ begins_key kinds.now }
{
    kinds.get(0).is_some_and(|kind| is_primary(*kind))
        && kinds.get(1).is_some_and(|kind| is_key(*kind))
        && !kinds.get(2).is_some_and(|kind| is_desc(*kind))
}

/// Whether the words PRIMARY KEY stand somewhere without DESC behind them.
#[tactic(auto, using(crate::proofs::ItemLemmas::key_step, crate::proofs::ItemLemmas::key_stop))]
fn has_key(kinds: &[Kind]) -> bool
    ensures { result ≡ has_key kinds.now }
{
    for place in 0..kinds.len() {
        let (_, rest) = kinds.split_at(place);
        if begins_key(rest) {
            return true;
        }
    }
    false
}
