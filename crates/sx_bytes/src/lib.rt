//! Numbers in the bytes of the evidence, the sizes of its pages and the encodings of its texts.
#![tactic(auto)]

mod decoding;
mod encoding;
mod number;
mod page_size;
mod varints;

pub use decoding::{
    decode, decodes_to, decoding_both_ways, is_pair, pair_character, split_first_unit,
};
pub use encoding::Encoding;
pub use number::{be16, be24, be32, be48, be64};
pub use page_size::{can_be_page_size, page_sizes_are_multiples};
pub use varints::{
    one_varint, short_varint, varint, varint_both_ways, varint_len, varint_len_is_least,
};
