//! One item of a table's text.
ghost use Rattle.std.specs.Prelude.{◌≡◌, ◌≤◌, ◌<◌, ◌+◌, ◌^◌, ◌++◌, drop, length, OnOk};
ghost use Rattle.sx_ddl.specs.Items.{depth_behind, ends_item, item_len, ends_closed, begins_closed, outside, outer_kind, keys_of, sole_key, begins_sole_key};

use crate::kinds::{closes, is_key, is_name, is_primary, opens, separates};
use crate::token::{Kind, Token};
use std::alloc::AllocError;

/// How many parentheses are open behind a token.
fn depth_behind(depth: usize, kind: Kind) -> usize
    requires { depth + 1 < 2 ^ 64 }
    ensures behind { result ≡ depth_behind depth kind }
    ensures more { result ≤ depth + 1 }
{
    if opens(kind) {
        depth + 1
    } else if closes(kind) {
        depth.saturating_sub(1)
    } else {
        depth
    }
}

/// Whether a token ends an item.
fn ends_item(depth: usize, kind: Kind) -> bool
    ensures { result ≡ ends_item depth kind }
{
    depth == 0 && (closes(kind) || separates(kind))
}

/// How many tokens stand before the one that ends the item at the front.
pub(crate) fn item_len(tokens: &[Token]) -> usize
    ensures len { result ≡ item_len 0 0 tokens.now }
    ensures within { result ≤ length tokens.now }
{
    let mut depth = 0usize;
    for place in 0..tokens.len() {
        let kind = tokens[place].kind;
        if ends_item(depth, kind) {
            return place;
        }
        depth = depth_behind(depth, kind);
    }
    tokens.len()
}

/// Whether the item at the front is ended by a closing parenthesis.
#[tactic(auto, unfolding(crate::specs::Items::ends_closed))]
fn ends_closed(tokens: &[Token]) -> bool
    ensures { result ≡ ends_closed tokens.now }
{
    begins_closed(tokens.split_at(item_len(tokens)).1)
}

/// Whether a closing parenthesis stands at the front.
pub(crate) fn begins_closed(tokens: &[Token]) -> bool
    ensures { result ≡ begins_closed tokens.now }
{
    match tokens {
        [] => false,
        [first, ..] => closes(first.kind),
    }
}

/// The tokens behind the first.
pub(crate) fn without_first(tokens: &[Token]) -> &[Token]
    ensures { result.now ≡ drop 1 tokens.now }
{
    tokens.split_at(tokens.len().min(1)).1
}

/// What stands outside the parentheses of an item, put in place of what the buffer holds.
pub(crate) fn put_outside(kinds: &mut Vec<Kind>, tokens: &[Token]) -> Result<(), AllocError>
    ensures { OnOk result (kinds.new.items ≡ outside 0 tokens.now) }
{
    kinds.clear();
    let mut depth = 0usize;
    for place in 0..tokens.len() {
        let kind = tokens[place].kind;
        put_outer(kinds, depth, kind)?;
        depth = depth_behind(depth, kind);
    }
    Ok(())
}

/// Appends a kind that stands outside parentheses.
fn put_outer(kinds: &mut Vec<Kind>, depth: usize, kind: Kind) -> Result<(), AllocError>
    ensures { OnOk result (kinds.new.items ≡ kinds.old.items ++ outer_kind depth kind) }
{
    if depth == 0 {
        kinds.push(kind)?;
    }
    Ok(())
}

/// Whether the words PRIMARY KEY stand here and then one name alone in parentheses.
fn begins_sole_key(tokens: &[Token]) -> bool
    ensures { result ≡ begins_sole_key tokens.now }
{
    if tokens.len() < 4 {
        return false;
    }
    is_primary(tokens[0].kind)
        && is_key(tokens[1].kind)
        && opens(tokens[2].kind)
        && is_name(tokens[3].kind)
        && ends_closed(tokens.split_at(3).1)
}

/// Appends the names that stand alone in the parentheses of PRIMARY KEY in a table constraint.
pub(crate) fn put_keys(keys: &mut Vec<Token>, tokens: &[Token]) -> Result<(), AllocError>
    ensures { OnOk result (keys.new.items ≡ keys.old.items ++ keys_of 0 tokens.now) }
{
    let mut depth = 0usize;
    for place in 0..tokens.len() {
        let kind = tokens[place].kind;
        let (_, rest) = tokens.split_at(place);
        put_sole_key(keys, depth, rest)?;
        depth = depth_behind(depth, kind);
    }
    Ok(())
}

/// Appends the name that the front of these tokens has as its only key.
#[tactic(auto, using(crate::proofs::ItemLemmas::fourth))]
fn put_sole_key(keys: &mut Vec<Token>, depth: usize, tokens: &[Token]) -> Result<(), AllocError>
    ensures { OnOk result (keys.new.items ≡ keys.old.items ++ sole_key depth tokens.now) }
{
    if depth == 0 && tokens.len() > 3 && begins_sole_key(tokens) {
        keys.push(tokens[3])?;
    }
    Ok(())
}
