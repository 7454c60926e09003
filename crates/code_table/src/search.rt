//! A place by its sum.
ghost use Rattle.std.specs.Prelude.{◌≡◌, ℕ, ◌+◌, ◌-◌, ◌≤◌, ◌<◌, length, slice_index};

/// A place whose sum is at most the number, while the next place's is above it.
pub(crate) fn place_of(sums: &[u32], number: u32) -> usize
    requires some { 2 ≤ length sums.now }
    requires first { slice_index sums.now 0 ≤ number }
    requires last { number < slice_index sums.now (length sums.now - 1) }
    ensures within { result + 1 < length sums.now }
    ensures low { slice_index sums.now result ≤ number }
    ensures high { number < slice_index sums.now (result + 1) }
{
    let mut low = 0;
    let mut high = sums.len() - 1;
    while high - low > 1 {
        let middle = low + (high - low) / 2;
        if sums[middle] <= number {
            low = middle;
        } else {
            high = middle;
        }
    }
    low
}
