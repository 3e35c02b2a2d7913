//! The value of a column.

/// The value of a column ("Record Format").
#[derive(Clone, Copy, Debug, PartialEq, Eq)]
pub enum Value<'a> {
    /// NULL.
    Null,
    /// A signed integer.
    Int(i64),
    /// The 8 bytes of a floating point number, the high byte first.
    Real(&'a [u8]),
    /// The bytes of a text, in the encoding of its database.
    Text(&'a [u8]),
    /// The bytes of a blob.
    Blob(&'a [u8]),
}
