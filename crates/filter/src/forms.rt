// The tests of form, range and room that calls make before they write.
ghost use Rattle.std.specs.Prelude.{◌≡◌, ◌&&◌, leb, length};
ghost use Rattle.bucket.specs.Columns.{columns};
ghost use Rattle.filter.specs.Calls.{in_range, is_count, are_counts, has_room};

// Whether a filter may have this size and salt.
#[tactic(auto, unfolding(crate::specs::Calls::in_range))]
pub fn in_range(size: u32, salt: u32) -> bool
    ensures { result ≡ in_range size salt }
{
    (37..=4096).contains(&size) && salt < 64
}

// Whether the first size counts, or as many as there are, lie in 0 to 2^32 − 1. No count that does not ends the test, so that the compiler can test
// several at once.
pub fn are_counts(counts: &[i64], size: u32) -> bool
    ensures { result ≡ are_counts size counts.now }
{
    let n = (size as usize).min(counts.len());
    counts[..n].iter().fold(true, |good, c| good & is_count(*c))
}

// Whether each column has at least size places.
#[tactic(auto, unfolding(crate::specs::Calls::has_room))]
pub fn has_room(ids: &[u64], hashes: &[u32], counts: &[i64], size: u32) -> bool
    ensures { result ≡ has_room size (columns ids.now hashes.now counts.now) }
{
    let n = size as usize;
    n <= ids.len() && n <= hashes.len() && n <= counts.len()
}

// Whether two lists each have at least size places.
pub fn lists_have_room(ours: &[u64], theirs: &[u64], size: u32) -> bool
    ensures { result ≡ (leb size (length ours.now) && leb size (length theirs.now)) }
{
    let n = size as usize;
    n <= ours.len() && n <= theirs.len()
}

fn is_count(c: i64) -> bool
    ensures { result ≡ is_count c }
{
    (0..4294967296).contains(&c)
}
