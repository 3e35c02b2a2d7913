//! Why the text of a table isn't read.
ghost use Rattle.std.specs.Prelude.{◌≡◌};

use std::alloc::AllocError;

/// Why the text of a table isn't read: what stands first in the text.
#[derive(Clone, Copy, Debug, PartialEq, Eq)]
pub enum DdlRefused {
    /// The text doesn't begin with the words CREATE and TABLE.
    NotTable,
    /// What the text holds at this place, in bytes from its start, fits nothing: the first byte of a token, or of a quoted
    /// name without an end, or the text's length where it ends too early.
    Unknown(u32),
    /// A column is generated.
    Generated,
    /// Memory ran out, or the text has 4,294,967,296 bytes or more.
    Memory,
}

impl From<AllocError> for DdlRefused {
    fn from(_error: AllocError) -> Self
        ensures { result ≡ DdlRefused.Memory }
    {
        DdlRefused::Memory
    }
}
