//! The runs of bytes of a page with one label.
ghost use Rattle.std.specs.Prelude.{◌≡◌};

use std::marker::Model;
use sx_base::{Label, Span};

/// The maximal runs of bytes of a page with one label that are still to come, in order.
#[derive(Drop)]
pub struct Runs<'m> {
    rest: &'m [(Span, Label)],
}

impl<'m> Model for Runs<'m> {
    ghost use Rattle.std.specs.Prelude.{List};
    ghost use Rattle.sx_base.specs.declared.evidence.Span.{Span};
    ghost use Rattle.sx_base.specs.declared.label.Label.{Label};

    ghost Value = { List (Span × Label) };

    ghost view = { λ runs. runs.rest.now };
}

impl<'m> Runs<'m> {
    /// These runs.
    pub(crate) fn new(rest: &'m [(Span, Label)]) -> Self
        ensures { result ≡ rest.now }
    {
        Runs { rest }
    }
}

impl<'m> Iterator for Runs<'m> {
    ghost use Rattle.std.specs.Iterator.{YieldsFirst, item_count};

    type Item = (Span, Label);

    ghost next_gives = { YieldsFirst (λ runs. runs) };

    ghost remaining = { item_count (λ runs. runs) };

    fn next(&mut self) -> Option<(Span, Label)> {
        let (run, rest) = self.rest.split_first()?;
        self.rest = rest;
        Some(*run)
    }
}
