//! The digest of a file.
ghost use Rattle.std.specs.Prelude.{◌≡◌, IfOk, string_bytes};
ghost use Rattle.sx_report.specs.Facts.{digest_of};

use sha2::{Digest, Sha256};
use std::alloc::{AllocError, Global};

/// The SHA-256 of these bytes (FIPS 180-4), 64 hexadecimal digits in lower case. `AllocError` comes where there is no memory
/// for them. The cost is that of going over the bytes once.
#[tactic(auto, unfolding(crate::specs::Facts::digest_of))]
pub fn digest_text(alloc: Global, bytes: &[u8]) -> Result<String, AllocError>
    ensures { IfOk result (λ text. string_bytes text ≡ digest_of bytes.now) }
{
    let digest = Sha256::digest(bytes);
    hex::encode(alloc, digest.as_slice())
}
