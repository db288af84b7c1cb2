// Columns and lists made zero at their start, and counts with their signs turned. A length stands beside what is lent, since the contracts
// say too that what is behind it stays.
ghost use Rattle.std.specs.Prelude.{◌≡◌, [], ℕ, ◌≤◌, ◌<◌, ◌^◌, length, get_or, pos, nat_abs};
ghost use Rattle.bucket.specs.Bucket.{𝟎};
ghost use Rattle.bucket.specs.Columns.{columns};
ghost use Rattle.filter.specs.Calls.{filled, listed_into};
ghost use Rattle.filter.specs.Steps.{Wide, negated};

pub(crate) fn clear_columns(ids: &mut [u64], hashes: &mut [u32], counts: &mut [i64], n: usize)
    requires { Wide n (columns ids.old hashes.old counts.old) }
    ensures { columns ids.new hashes.new counts.new
        ≡ filled n (λ i. 𝟎) (columns ids.old hashes.old counts.old) }
{
    // By index, the three at once: three fills call memset, which takes more instructions than the limit of building allows.
    for i in 0..n {
        ids[i] = 0;
        hashes[i] = 0;
        counts[i] = 0;
    }
}

pub(crate) fn clear_list(xs: &mut [u64], n: usize)
    requires { n ≤ length xs.old }
    ensures { xs.new ≡ listed_into n [] xs.old }
{
    xs[..n].fill(0);
}

// Turned signs make the received filter the one to be subtracted: the XOR sums are their own opposites.
pub(crate) fn negate(counts: &mut [i64], n: usize)
    requires { (n ≤ length counts.old) × ((i : ℕ) → i < n → nat_abs (get_or counts.old i (pos 0)) < 2 ^ 61) }
    ensures { counts.new ≡ negated n counts.old }
{
    for c in counts[..n].iter_mut() {
        *c = -*c;
    }
}
