// Counts of bits: the stratum of an ID and the width of a counter.
ghost use Rattle.std.specs.Prelude.{◌≡◌};
ghost use Rattle.bucket.specs.Counts.{stratum_of, width_of};

// How many trailing zero bits the ID has, at most 31.
#[tactic(auto, unfolding(crate::specs::Counts::stratum_of))]
pub fn stratum(x: u64) -> u32
    ensures { result ≡ stratum_of x }
{
    x.trailing_zeros().min(31)
}

// How many bits the counter needs, at least 1.
#[tactic(auto, unfolding(crate::specs::Counts::width_of))]
pub fn width(n: u32) -> u32
    ensures { result ≡ width_of n }
{
    (32 - n.leading_zeros()).max(1)
}
