//! The tokens of a text.
ghost use Rattle.std.specs.Prelude.{◌≡◌, ◌<◌, ◌^◌, length, IfOk};
ghost use Rattle.sx_ddl.specs.Tokens.{lexed, lexed_by, with_tokens, ends_at};

use crate::piece::{Piece, piece_of};
use crate::token::{End, Token};
use std::alloc::{AllocError, Global};

/// The tokens of a text in order, and where the reading of them ends.
#[derive(Drop)]
pub(crate) struct Tokens {
    pub(crate) tokens: Vec<Token>,
    pub(crate) end: End,
}

/// Reads the tokens of a text. The cost is linear in its bytes, and the memory in its tokens.
#[tactic(auto, using(crate::proofs::LexedLemmas::step_blank, crate::proofs::LexedLemmas::step_lexeme, crate::proofs::LexedLemmas::step_unended, crate::proofs::LexedLemmas::step_end, crate::proofs::LexedLemmas::with_none), unfolding(crate::specs::Tokens::lexed))]
pub(crate) fn read_tokens(alloc: Global, text: &[u8]) -> Result<Tokens, AllocError>
    requires { length text.now < 2 ^ 32 }
    ensures { IfOk result (λ read. lexed_by read ≡ lexed text.now) }
{
    let mut tokens = Vec::new(alloc);
    let mut at = 0usize;
    while at < text.len() {
        let (_, rest) = text.split_at(at);
        match piece_of(rest) {
            Piece::Unended => return Ok(ended(tokens, at as u32, false)),
            Piece::Blank(len) => at += len as usize,
            Piece::Lexeme(kind, len) => {
                tokens.push(Token {
                    at: at as u32,
                    len,
                    kind,
                })?;
                at += len as usize;
            }
        }
    }
    Ok(ended(tokens, at as u32, true))
}

/// Tokens whose reading ends at a place.
#[tactic(auto, unfolding(crate::specs::Tokens::with_tokens))]
fn ended(tokens: Vec<Token>, at: u32, whole: bool) -> Tokens
    ensures { lexed_by result ≡ with_tokens tokens.items (ends_at at whole) }
{
    Tokens {
        tokens,
        end: End { at, whole },
    }
}
