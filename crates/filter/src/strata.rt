// The strata of an estimator: one subtracted from another, and the readings of the strata counted.
ghost use Rattle.std.specs.Prelude.{◌≡◌, ◌<◌, ◌+◌, ◌*◌, ◌^◌};
ghost use Rattle.bucket.specs.Columns.{columns, view};
ghost use Rattle.bucket.specs.Crc.{crc_tables};
ghost use Rattle.filter.specs.Peeling.{reading};
ghost use Rattle.filter.specs.Calls.{filled};
ghost use Rattle.filter.specs.Estimator.{stratum_rule, strata_verdict, reading_at, readings, sampled, estimate_of, left_by, left_at, remaining, less};
ghost use Rattle.filter.specs.Steps.{Wide, Small, counted};

use crate::answers::Estimate;
use crate::repeats::Trees;

// The first n buckets become themselves minus the others.
pub(crate) fn subtract(
    ids: &mut [u64],
    hashes: &mut [u32],
    counts: &mut [i64],
    ids2: &[u64],
    hashes2: &[u32],
    counts2: &[i64],
    n: usize,
)
    requires { Wide n (columns ids.old hashes.old counts.old) × Wide n (columns ids2.now hashes2.now counts2.now)
        × Small n (2 ^ 33) (columns ids.old hashes.old counts.old) × Small n (2 ^ 33) (columns ids2.now hashes2.now counts2.now) }
    ensures { columns ids.new hashes.new counts.new
        ≡ filled n (less (view (columns ids.old hashes.old counts.old)) (view (columns ids2.now hashes2.now counts2.now)))
        (columns ids.old hashes.old counts.old) }
{
    // By index: of what is written through a zip over iter_mut, a proof knows nothing.
    for i in 0..n {
        ids[i] ^= ids2[i];
        hashes[i] ^= hashes2[i];
        counts[i] -= counts2[i];
    }
}

// Reads the strata, the highest first, up to the first that is not complete, and makes the estimate of what was listed.
pub(crate) fn read_all(
    tab: &[u32; 2048],
    ids: &mut [u64],
    hashes: &mut [u32],
    counts: &mut [i64],
    salt: u32,
) -> Estimate
    requires { (tab.now ≡ crc_tables) × (salt < 64) × Wide 2528 (columns ids.old hashes.old counts.old)
        × Small 2528 (2 ^ 34) (columns ids.old hashes.old counts.old) }
    ensures { (result ≡ estimate_of 0 (readings salt 32 (view (columns ids.old hashes.old counts.old))))
        × (columns ids.new hashes.new counts.new
        ≡ filled 2528 (remaining salt 32 (view (columns ids.old hashes.old counts.old)))
        (columns ids.old hashes.old counts.old)) }
{
    let mut trees = Trees::new();
    let mut total: u64 = 0;
    for i in (0..32).rev() {
        let Some(listed) = read_one(tab, ids, hashes, counts, &mut trees, i, salt) else {
            return sample(total, i);
        };
        total += listed as u64;
    }
    Estimate::Known(total)
}

// The estimate where stratum i is the first that is not complete, and the total is listed above it: of nothing, nothing is known.
fn sample(total: u64, i: usize) -> Estimate
    requires few { total < 4096 }
    requires inside { i < 32 }
    ensures { result ≡ sampled total i }
{
    if total == 0 {
        return Estimate::Unknown;
    }
    Estimate::Known(total << (i + 1))
}

// How many IDs stratum s lists, if it is complete.
fn read_one(
    tab: &[u32; 2048],
    ids: &mut [u64],
    hashes: &mut [u32],
    counts: &mut [i64],
    trees: &mut Trees,
    s: usize,
    salt: u32,
) -> Option<usize>
    requires tables { tab.now ≡ crc_tables }
    requires salt_in { salt < 64 }
    requires inside { s < 32 }
    requires wide { Wide 2528 (columns ids.old hashes.old counts.old) }
    requires small { Small (79 * (s + 1)) (2 ^ 34) (columns ids.old hashes.old counts.old) }
    ensures listed { result ≡ counted (reading_at salt s (view (columns ids.old hashes.old counts.old))) }
    ensures left { columns ids.new hashes.new counts.new
        ≡ filled 2528 (left_at salt s (view (columns ids.old hashes.old counts.old)))
        (columns ids.old hashes.old counts.old) }
{
    let a = 79 * s;
    let e = a + 79;
    read_part(
        tab,
        &mut ids[a..e],
        &mut hashes[a..e],
        &mut counts[a..e],
        trees,
        salt,
    )
}

// The same of one stratum, lent alone. A false one is left zero.
fn read_part(
    tab: &[u32; 2048],
    ids: &mut [u64],
    hashes: &mut [u32],
    counts: &mut [i64],
    trees: &mut Trees,
    salt: u32,
) -> Option<usize>
    requires tables { tab.now ≡ crc_tables }
    requires salt_in { salt < 64 }
    requires wide { Wide 79 (columns ids.old hashes.old counts.old) }
    requires small { Small 79 (2 ^ 34) (columns ids.old hashes.old counts.old) }
    ensures listed { result ≡ counted (reading (stratum_rule salt) (view (columns ids.old hashes.old counts.old))) }
    ensures left { columns ids.new hashes.new counts.new
        ≡ filled 79 (left_by (strata_verdict (reading (stratum_rule salt) (view (columns ids.old hashes.old counts.old))))
        (reading (stratum_rule salt) (view (columns ids.old hashes.old counts.old))))
        (columns ids.old hashes.old counts.old) }
{
    let mut ours = [0u64; 79];
    let mut theirs = [0u64; 79];
    let p = crate::peeling::peel(
        tab,
        ids,
        hashes,
        counts,
        &mut ours,
        &mut theirs,
        trees,
        79,
        salt,
        3,
    );
    let Some(listed) = p.listed else {
        crate::clearing::clear_columns(ids, hashes, counts, 79);
        return None;
    };
    if !crate::judging::all_zero(ids, hashes, counts, 79) {
        return None;
    }
    Some(listed.ours + listed.theirs)
}
