//! The text of `explain`.
ghost use Rattle.std.specs.Prelude.{◌≡◌, Some};
ghost use Rattle.sx_images.specs.Places.{physical_of};
ghost use Rattle.sx_explain_text.specs.Explain.{explain_lines};
ghost use Rattle.sx_explain_text.specs.Rest.{explain_rest};

use crate::place_text::{put_byte_line, put_moment_line, put_place_line};
use std::alloc::AllocError;
use sx_base::{Label, Moment, Place};
use sx_images::{ImageTable, Physical};
use sx_lines::Lines;

/// The lines of `explain` that are still to come.
#[derive(Drop)]
pub struct ExplainLines<'t> {
    images: &'t ImageTable,
    place: Place,
    physical: Physical,
    moment: Moment,
    label: Option<Label>,
    next: ExplainLine,
}

/// The next line of `explain`.
#[derive(Clone, Copy)]
pub enum ExplainLine {
    /// The byte.
    Byte,
    /// What it is part of.
    Thing,
    /// What it is at the moment, where it is a byte of a page image.
    Moment,
    /// None.
    End,
}

impl<'t> ExplainLines<'t> {
    /// All lines over the byte at a place, whose physical place this is, with its label at a moment; `None` stands for a
    /// byte whose image is no view there. The label of a byte that is no image's isn't printed.
    pub fn new(
        images: &'t ImageTable,
        place: Place,
        physical: Physical,
        moment: Moment,
        label: Option<Label>,
    ) -> Self
        requires { physical_of images.now place ≡ Some physical }
        ensures { explain_rest result ≡ explain_lines images.now place physical moment label }
    {
        ExplainLines {
            images,
            place,
            physical,
            moment,
            label,
            next: ExplainLine::Byte,
        }
    }
}

impl Lines for ExplainLines<'_> {
    ghost use Rattle.sx_explain_text.specs.Rest.{explain_rest};

    ghost lines = { explain_rest };

    fn next_line(&mut self, line: &mut String) -> Result<bool, AllocError> {
        match self.next {
            ExplainLine::Byte => {
                put_byte_line(self.place, line)?;
                self.next = ExplainLine::Thing;
                Ok(true)
            }
            ExplainLine::Thing => {
                put_place_line(self.images, self.physical, line)?;
                self.next = ExplainLine::Moment;
                Ok(true)
            }
            ExplainLine::Moment => {
                self.next = ExplainLine::End;
                match self.physical {
                    Physical::Image(_, _) => {
                        put_moment_line(self.moment, self.label, line)?;
                        Ok(true)
                    }
                    _ => Ok(false),
                }
            }
            ExplainLine::End => Ok(false),
        }
    }
}
