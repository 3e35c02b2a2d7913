//! The names that tokens spell.
ghost use Rattle.std.specs.Prelude.{◌≡◌, ◌==◌, ◌&&◌, ◌++◌, ◌∷◌, [], false, not, drop, take, if◌then◌else◌, IfOk, OnOk};
ghost use Rattle.sx_ddl.specs.Keywords.{lowered};
ghost use Rattle.sx_ddl.specs.Shapes.{bytes_of, inside, name_in, undoubled, unquoted};

use crate::piece::is_quote;
use crate::token::Token;
use std::alloc::{AllocError, Global};

/// The name that a token spells.
pub(crate) fn name_in(alloc: Global, text: &[u8], token: Token) -> Result<Vec<u8>, AllocError>
    ensures { IfOk result (λ name. name.items ≡ name_in text.now token) }
{
    unquoted(alloc, bytes_of(text, token))
}

/// The name that a token spells, in lower case.
pub(crate) fn lowered_name(alloc: Global, text: &[u8], token: Token) -> Result<Vec<u8>, AllocError>
    ensures { IfOk result (λ name. name.items ≡ lowered (name_in text.now token)) }
{
    let mut name = name_in(alloc, text, token)?;
    name.make_ascii_lowercase();
    Ok(name)
}

/// The bytes of a token.
fn bytes_of(text: &[u8], token: Token) -> &[u8]
    ensures { result.now ≡ bytes_of text.now token }
{
    up_to(behind(text, token.at as usize), token.len as usize)
}

/// What stands behind as many bytes.
#[tactic(auto, using(crate::proofs::NameLemmas::drop_past))]
fn behind(bytes: &[u8], len: usize) -> &[u8]
    ensures { result.now ≡ drop len bytes.now }
{
    if len < bytes.len() {
        bytes.split_at(len).1
    } else {
        bytes.split_at(bytes.len()).1
    }
}

/// As many bytes of the front.
#[tactic(auto, using(crate::proofs::NameLemmas::take_past))]
fn up_to(bytes: &[u8], len: usize) -> &[u8]
    ensures { result.now ≡ take len bytes.now }
{
    if len < bytes.len() {
        bytes.split_at(len).0
    } else {
        bytes
    }
}

/// A name without its quotes or brackets.
#[tactic(auto, unfolding(crate::specs::Shapes::unquoted))]
fn unquoted(alloc: Global, bytes: &[u8]) -> Result<Vec<u8>, AllocError>
    ensures { IfOk result (λ name. name.items ≡ unquoted bytes.now) }
{
    if bytes.is_empty() {
        return Ok(Vec::new(alloc));
    }
    let first = bytes[0];
    if is_quote(first) {
        undoubled(alloc, first, inside(bytes))
    } else if first == b'[' {
        inside(bytes).to_vec(alloc)
    } else {
        bytes.to_vec(alloc)
    }
}

/// Without the first and the last byte.
fn inside(bytes: &[u8]) -> &[u8]
    ensures { result.now ≡ inside bytes.now }
{
    up_to(behind(bytes, 1), bytes.len().saturating_sub(2))
}

/// What stands between marks, with one mark for two.
fn undoubled(alloc: Global, mark: u8, bytes: &[u8]) -> Result<Vec<u8>, AllocError>
    ensures { IfOk result (λ name. name.items ≡ undoubled mark false bytes.now) }
{
    let mut name = Vec::new(alloc);
    let mut marked = false;
    for place in 0..bytes.len() {
        let byte = bytes[place];
        let second = is_second(marked, byte, mark);
        put_unless(&mut name, second, byte)?;
        marked = is_first(second, byte, mark);
    }
    Ok(name)
}

/// Whether a byte is the second of two marks.
fn is_second(marked: bool, byte: u8, mark: u8) -> bool
    ensures { result ≡ (marked && byte == mark) }
{
    marked && byte == mark
}

/// Whether a byte is a mark that is no second one.
fn is_first(second: bool, byte: u8, mark: u8) -> bool
    ensures { result ≡ (not second && byte == mark) }
{
    !second && byte == mark
}

/// Appends a byte that is no second mark.
fn put_unless(name: &mut Vec<u8>, second: bool, byte: u8) -> Result<(), AllocError>
    ensures { OnOk result (name.new.items ≡ name.old.items ++ (if second then [] else byte ∷ [])) }
{
    if !second {
        name.push(byte)?;
    }
    Ok(())
}
