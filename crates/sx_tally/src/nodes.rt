//! The sums over pairs that stand before a list of counts.
ghost use Rattle.std.specs.Prelude.{◌≡◌, ℕ, ◌+◌, ◌-◌, ◌*◌, ◌%◌, ◌^◌, ◌<◌, ◌≤◌, ◌==◌, if◌then◌else◌, length, take, drop, sum, slice_set, slice_index};
ghost use Rattle.sx_tally.specs.Tallied.{IsTallied, IsRaising};

/// Raises the count at a place, from 0, and each sum that it is part of.
pub fn raise(sums: &mut [u32], len: usize, place: usize)
    requires tallied { IsTallied len sums.old }
    requires within { place < len }
    requires few { sum (drop len sums.old) < 2 ^ 32 - 1 }
    ensures tallied { IsTallied len sums.new }
    ensures raised { drop len sums.new ≡ slice_set (drop len sums.old) place (slice_index (drop len sums.old) place + 1) }
{
    sums[len + place] += 1;
    raise_above(sums, len, (len + place) / 2);
}

// Raises the sums from an item upwards by one.
fn raise_above(sums: &mut [u32], len: usize, first: usize)
    requires { IsRaising len first sums.old }
    ensures tallied { IsTallied len sums.new }
    ensures counts { drop len sums.new ≡ drop len sums.old }
{
    let mut node = first;
    while node > 0 {
        sums[node] += 1;
        node /= 2;
    }
}

/// The sum of the counts at the places below `end`.
pub fn front(sums: &[u32], len: usize, end: usize) -> u32
    requires tallied { IsTallied len sums.now }
    requires within { end ≤ len }
    ensures { result ≡ sum (take end (drop len sums.now)) }
{
    let mut total = 0;
    let mut low = len;
    let mut high = len + end;
    while low < high {
        total += odd(sums, low, low) + odd(sums, high, high - 1);
        low = (low + 1) / 2;
        high /= 2;
    }
    total
}

// The item at a place, where the number is odd, and else 0.
fn odd(sums: &[u32], number: usize, place: usize) -> u32
    requires { place < length sums.now }
    ensures { result ≡ (if number % 2 == 1 then slice_index sums.now place else 0) }
{
    if number % 2 == 1 { sums[place] } else { 0 }
}
