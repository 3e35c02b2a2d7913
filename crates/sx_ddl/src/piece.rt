//! What stands at the front of a text.
ghost use Rattle.std.specs.Prelude.{◌≡◌, ◌<◌, ◌≤◌, ◌+◌, ◌^◌, false, drop, length, slice_index, IfSome};
ghost use Rattle.std.specs.List.{prefix_len};
ghost use Rattle.sx_ddl.specs.Tokens.{begins_word, continues_word, is_blank, is_quote, len_before, comment_end, quote_end, bracket_end, word_len, piece_of, quoted_piece};
ghost use Rattle.sx_ddl.specs.Pieces.{IsPart};

use crate::keyword::keyword_of;
use crate::token::Kind;

/// What stands at the front of a text, with its length in bytes.
#[derive(Clone, Copy, Debug, PartialEq, Eq)]
pub enum Piece {
    /// A blank or a comment.
    Blank(u32),
    /// A token.
    Lexeme(Kind, u32),
    /// A quoted name without an end.
    Unended,
}

/// What stands at the front of a text. The cost is linear in its length.
#[tactic(auto, unfolding(crate::specs::Tokens::piece_of))]
pub(crate) fn piece_of(text: &[u8]) -> Piece
    requires some { 0 < length text.now }
    requires short { length text.now < 2 ^ 32 }
    ensures piece { result ≡ piece_of text.now }
    ensures part { IsPart result (length text.now) }
{
    let first = text[0];
    let second = if text.len() > 1 { text[1] } else { 0 };
    if is_blank(first) {
        Piece::Blank(1)
    } else if first == b'-' && second == b'-' {
        Piece::Blank(len_before(b'\n', text))
    } else if first == b'/' && second == b'*' {
        Piece::Blank(comment_end(text))
    } else if begins_word(first) {
        let len = word_len(text);
        Piece::Lexeme(Kind::Word(keyword_of(&text[..len as usize])), len)
    } else if is_quote(first) {
        quoted_piece(quote_end(text))
    } else if first == b'[' {
        quoted_piece(bracket_end(text))
    } else {
        Piece::Lexeme(Kind::Mark(first), 1)
    }
}

/// The piece that is a quoted name of this length.
fn quoted_piece(len: Option<u32>) -> Piece
    ensures { result ≡ quoted_piece len }
{
    match len {
        Some(len) => Piece::Lexeme(Kind::Quoted, len),
        None => Piece::Unended,
    }
}

/// The length of the word at the front.
#[tactic(auto, unfolding(crate::specs::Tokens::word_len))]
fn word_len(text: &[u8]) -> u32
    requires some { 0 < length text.now }
    requires short { length text.now < 2 ^ 32 }
    ensures len { result ≡ word_len text.now }
    ensures some { 0 < result }
    ensures within { result ≤ length text.now }
{
    let behind = &text[1..];
    1 + run_len(behind)
}

/// How many bytes at the front continue a word.
fn run_len(text: &[u8]) -> u32
    requires { length text.now < 2 ^ 32 }
    ensures run { result ≡ prefix_len continues_word text.now }
    ensures within { result ≤ length text.now }
{
    text.iter()
        .take_while(|byte| continues_word(**byte))
        .count() as u32
}

/// How many bytes stand before the first that is this one.
fn len_before(mark: u8, text: &[u8]) -> u32
    requires { length text.now < 2 ^ 32 }
    ensures run { result ≡ len_before mark text.now }
    ensures within { result ≤ length text.now }
{
    text.iter().take_while(|byte| **byte != mark).count() as u32
}

/// The place behind the first closing bracket.
#[tactic(auto, unfolding(crate::specs::Tokens::bracket_end))]
fn bracket_end(text: &[u8]) -> Option<u32>
    requires { length text.now < 2 ^ 32 }
    ensures end { result ≡ bracket_end text.now }
    ensures within { IfSome result (λ end. end ≤ length text.now) }
    ensures some { IfSome result (λ end. 0 < end) }
{
    let before = len_before(b']', text);
    if (before as usize) < text.len() {
        Some(before + 1)
    } else {
        None
    }
}

/// The place behind the end of a comment that has begun at the front.
#[tactic(auto, using(crate::proofs::PieceLemmas::comment_step, crate::proofs::PieceLemmas::comment_stop))]
fn comment_end(text: &[u8]) -> u32
    requires some { 2 ≤ length text.now }
    requires short { length text.now < 2 ^ 32 }
    ensures end { result ≡ comment_end false 2 (drop 2 text.now) }
    ensures within { result ≤ length text.now }
    ensures some { 0 < result }
{
    let mut starred = false;
    for at in 2..text.len() {
        if starred && text[at] == b'/' {
            return at as u32 + 1;
        }
        starred = text[at] == b'*';
    }
    text.len() as u32
}

/// The place behind the mark that ends the quoted name at the front.
#[tactic(auto, using(crate::proofs::PieceLemmas::quote_step, crate::proofs::PieceLemmas::quote_stop))]
fn quote_end(text: &[u8]) -> Option<u32>
    requires some { 0 < length text.now }
    requires short { length text.now < 2 ^ 32 }
    ensures end { result ≡ quote_end (slice_index text.now 0) false 1 (drop 1 text.now) }
    ensures within { IfSome result (λ end. end ≤ length text.now) }
    ensures some { IfSome result (λ end. 0 < end) }
{
    let mark = text[0];
    let mut marked = false;
    for at in 1..text.len() {
        if marked && text[at] != mark {
            return Some(at as u32);
        }
        marked = !marked && text[at] == mark;
    }
    if marked {
        Some(text.len() as u32)
    } else {
        None
    }
}

/// A space, tab, line feed, form feed or carriage return.
fn is_blank(byte: u8) -> bool
    ensures { result ≡ is_blank byte }
{
    byte == b' ' || byte == b'\t' || byte == b'\n' || byte == 0x0c || byte == b'\r'
}

/// An ASCII letter, an underscore, or a byte from 0x80 up.
fn begins_word(byte: u8) -> bool
    ensures { result ≡ begins_word byte }
{
    (b'a' <= byte && byte <= b'z') || (b'A' <= byte && byte <= b'Z') || byte == b'_' || 0x80 <= byte
}

/// A byte that may begin a word, an ASCII digit or a dollar sign.
fn continues_word(byte: u8) -> bool
    ensures { result ≡ continues_word byte }
{
    begins_word(byte) || (b'0' <= byte && byte <= b'9') || byte == b'$'
}

/// A double quote, a backquote or an apostrophe.
pub(crate) fn is_quote(byte: u8) -> bool
    ensures { result ≡ is_quote byte }
{
    byte == b'"' || byte == b'`' || byte == b'\''
}
