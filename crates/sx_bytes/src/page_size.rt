//! The sizes that a page can have.
ghost use Rattle.std.specs.Prelude.{◌≡◌, ◌↔◌, ℕ, ◌%◌, IsTrue};
ghost use Rattle.sx_bytes.specs.PageSize.{is_page_size, IsPageSize};

/// Whether `size`, in bytes, is one that a page can have: a power of two from 512 to 65536 ("Page Size").
#[tactic(auto, unfolding(crate::specs::PageSize::is_page_size))]
pub fn can_be_page_size(size: u32) -> bool
    ensures value { result ≡ is_page_size size }
    ensures fact { IsTrue result ↔ IsPageSize size }
{
    size.is_power_of_two() && size >= 512 && size <= 65536
}

/// Every page size is a multiple of the least.
#[tactic(auto, using(crate::proofs::PageSizeLemmas::size_mod_512))]
pub fn page_sizes_are_multiples()
    ensures { (size : ℕ) → IsPageSize size → size % 512 ≡ 0 }
{}

#[cfg(test)]
mod tests {
    use super::*;

    #[test]
    fn page_sizes_are_powers_within_their_bounds(rt: HostRuntime) {
        let table = [
            (0, false),
            (1, false),
            (256, false),
            (512, true),
            (513, false),
            (768, false),
            (32768, true),
            (65535, false),
            (65536, true),
            (131072, false),
        ];
        for (size, want) in table {
            assert_eq!(rt; can_be_page_size(size), want, "at {size}");
        }
    }
}
