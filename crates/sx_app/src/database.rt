//! A database file as it was loaded.
ghost use Rattle.std.specs.Prelude.{◌≤◌, length};
ghost use Rattle.sx_edge.specs.declared.whole_file.TheConstants.{GREATEST_FILE};
ghost use Rattle.sx_header.specs.Header.{HasRanges};

use sx_header::Header;

/// A database file that was read whole, and the header that it begins with.
#[derive(Drop)]
pub struct Database {
    /// The accepted header.
    pub header: Header,
    /// All bytes of the file, at most 1 GiB.
    pub bytes: Vec<u8>,
    ghost ranges: { HasRanges header },
    ghost small: { length bytes.items ≤ GREATEST_FILE },
}
