//! Bytes as hexadecimal digits in lower case.
ghost use Rattle.std.specs.Prelude.{◌≡◌, ◌++◌, ◌≤◌, length, OnOk};
ghost use Rattle.std.specs.String.{string_bytes};
ghost use Rattle.hex.specs.Hex.{encode_lower};

use crate::run::put_run;
use std::alloc::AllocError;

/// How many bytes are turned into digits at a time.
const PIECE: usize = 32;

/// Appends the digits of bytes, a piece at a time.
pub fn put_hexadecimal(line: &mut String, bytes: &[u8]) -> Result<(), AllocError>
    ensures { OnOk result (string_bytes line.new ≡ string_bytes line.old ++ encode_lower bytes.now) }
{
    let mut rest = bytes;
    while rest.len() > PIECE {
        let (piece, behind) = rest.split_at(PIECE);
        put_piece(line, piece)?;
        rest = behind;
    }
    put_piece(line, rest)
}

/// Appends the digits of a piece by way of a buffer on the stack.
fn put_piece(line: &mut String, piece: &[u8]) -> Result<(), AllocError>
    requires { length piece.now ≤ 32 }
    ensures { OnOk result (string_bytes line.new ≡ string_bytes line.old ++ encode_lower piece.now) }
{
    let mut buffer = [0; 2 * PIECE];
    let digits = &mut buffer[..2 * piece.len()];
    let _ = hex::encode_to_slice(piece, digits);
    put_run(line, digits)
}
