// How a peeling is called: complete, stuck or false.
ghost use Rattle.std.specs.Prelude.{◌≡◌, true, false, ◌&&◌};
ghost use Rattle.bucket.specs.Columns.{columns, view};
ghost use Rattle.filter.specs.Table.{first_eight, ids_of};
ghost use Rattle.filter.specs.Peeling.{all_zero, verdict_by};
ghost use Rattle.filter.specs.Steps.{Wide, every};

use crate::answers::Verdict;
use crate::finding::{Hints, is_held};
use crate::table::Table;

// The verdict on a peeling that was in order and listed these IDs. The table is asked only once the columns are zero.
pub(crate) fn judge(
    table: Table<'_>,
    ids: &[u64],
    hashes: &[u32],
    counts: &[i64],
    ours: &[u64],
    theirs: &[u64],
    size: u32,
) -> Verdict
    requires { Wide size (columns ids.now hashes.now counts.now) }
    ensures { result ≡ verdict_by true (all_zero (view (columns ids.now hashes.now counts.now)) size)
        (every true (ids_of first_eight table.entry.bytes.now) ours.now && every false (ids_of first_eight table.entry.bytes.now) theirs.now) }
{
    if !all_zero(ids, hashes, counts, size as usize) {
        return Verdict::Stuck;
    }
    if !lists_agree(table, ours, theirs) {
        return Verdict::False;
    }
    Verdict::Complete
}

// Whether the first n buckets are zero. They are asked from the last one down, and the first that is not zero ends it.
pub(crate) fn all_zero(ids: &[u64], hashes: &[u32], counts: &[i64], n: usize) -> bool
    requires { Wide n (columns ids.now hashes.now counts.now) }
    ensures { result ≡ all_zero (view (columns ids.now hashes.now counts.now)) n }
{
    (0..n)
        .rev()
        .all(|i| bucket::columns::is_zero(ids[i], hashes[i], counts[i]))
}

// Whether the table has all IDs of one list and none of the other. Hints are worth making for many IDs only.
fn lists_agree(table: Table<'_>, ours: &[u64], theirs: &[u64]) -> bool
    ensures { result ≡ (every true (ids_of first_eight table.entry.bytes.now) ours.now && every false (ids_of first_eight table.entry.bytes.now) theirs.now) }
{
    if ours.len() + theirs.len() < 256 {
        return lists_agree_by(table, None, ours, theirs);
    }
    let mut hints = [0; 4096];
    crate::finding::fill(table, &mut hints);
    lists_agree_by(table, Some(&hints), ours, theirs)
}

// The same with hints or without.
fn lists_agree_by(table: Table<'_>, hints: Option<&Hints>, ours: &[u64], theirs: &[u64]) -> bool
    ensures { result ≡ (every true (ids_of first_eight table.entry.bytes.now) ours.now && every false (ids_of first_eight table.entry.bytes.now) theirs.now) }
{
    ours.iter().all(|id| is_held(table, hints, *id))
        && !theirs.iter().any(|id| is_held(table, hints, *id))
}
