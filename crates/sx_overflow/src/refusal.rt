//! Why a payload can't be had as a whole.
ghost use Rattle.std.specs.Prelude.{◌≡◌};
ghost use Rattle.sx_overflow.specs.declared.refusal.PayloadRefused.TheVariants.{ShortChain as IsShort, Memory};

use std::alloc::AllocError;

/// The overflow pages of a payload end too early.
///
/// A page that it needs has the number 0 or no view, or it needs more pages than have one.
#[derive(Clone, Copy, Debug, PartialEq, Eq)]
pub struct ShortChain;

/// Why the rest of a payload wasn't gathered.
#[derive(Clone, Copy, Debug, PartialEq, Eq)]
pub enum PayloadRefused {
    /// The overflow pages end too early.
    ShortChain,
    /// There is no memory for the bytes.
    Memory,
}

impl From<ShortChain> for PayloadRefused {
    ghost from_gives = { λ _ refused. refused ≡ IsShort };

    fn from(_short: ShortChain) -> Self {
        PayloadRefused::ShortChain
    }
}

impl From<AllocError> for PayloadRefused {
    ghost from_gives = { λ _ refused. refused ≡ Memory };

    fn from(_full: AllocError) -> Self {
        PayloadRefused::Memory
    }
}
