//! A candidate: a span that reads as what is left of a row.

use std::marker::Model;
use sx_grammar::Reading;

/// A span of a page image that nothing owns and that a form accepts.
///
/// It is no proof that it was a row: other bytes can read as one by chance.
#[derive(Drop)]
pub struct Candidate<'a> {
    /// The number of the image, from 0.
    pub image: u32,
    /// Where it begins in the image, in bytes.
    pub at: u32,
    /// What is read of it.
    pub reading: Reading<'a>,
}

impl<'a> Model for Candidate<'a> {
    ghost use Rattle.sx_carve.specs.Candidates.{Carved};

    ghost Value = { Carved };

    ghost view = { λ candidate. record { image = candidate.image; at = candidate.at; sighting = candidate.reading } };
}
