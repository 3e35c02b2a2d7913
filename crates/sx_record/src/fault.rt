//! Why a payload is no record.

/// Why a payload is no record ("Record Format"): the first fault in the order of the variants.
#[derive(Clone, Copy, Debug, PartialEq, Eq)]
pub enum RecordFault {
    /// The header's size isn't whole, is below its own length or past the payload, or a type doesn't end by it.
    HeaderSize,
    /// A type is 10 or 11, which no record has.
    UnusedType,
    /// The header and the bodies aren't exactly the payload.
    BodyLength,
}
