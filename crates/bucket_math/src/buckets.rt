ghost use Rattle.std.specs.Prelude.{◌≡◌, ℕ, ◌^◌, ◌<◌, ◌≤◌, slice_index, sum};
ghost use Rattle.bucket_math.specs.Buckets.{cumulated};

/// How many buckets a histogram has, whatever the number of its bounds.
pub const BUCKETS: usize = 25;

/// The cumulated values of 25 buckets under `len` bounds: at a place below `len` the sum of the buckets up to it, at each
/// other place the sum of all. Takes no memory.
pub fn cumulate(buckets: &[u64; 25], len: usize) -> [u64; 25]
    requires few { len ≤ 24 }
    requires fits { sum buckets.now < 2 ^ 64 }
    ensures { (k : ℕ) → k < 25 → slice_index result k ≡ cumulated buckets.now len k }
{
    let total: u64 = buckets.iter().sum();
    let mut cumulated = [total; BUCKETS];
    let mut so_far = 0;
    for place in 0..len {
        so_far += buckets[place];
        cumulated[place] = so_far;
    }
    cumulated
}
