// The estimator: how different two tables are, before a filter's size is chosen.
ghost use Rattle.std.specs.Prelude.{◌≡◌, true, ◌&&◌};
ghost use Rattle.std.specs.Result.{result_err};
ghost use Rattle.bucket.specs.Columns.{columns};
ghost use Rattle.filter.specs.Answers.{number_of, estimate_answer};
ghost use Rattle.filter.specs.Table.{first_eight, ids_of, is_table};
ghost use Rattle.filter.specs.Filter.{filter_of};
ghost use Rattle.filter.specs.Calls.{are_counts, has_room, filled, built};
ghost use Rattle.filter.specs.Estimator.{estimator_rule, estimator_call, estimated, estimate_call};

use crate::answers::{Estimate, Refusal};

// The estimator of a table, in the first 2,528 places of the columns.
// Refused: a bad table, then a column shorter than 2,528; then nothing is changed.
#[tactic(auto, unfolding(crate::specs::Estimator::estimator_call, crate::specs::Estimator::estimator_refusal))]
pub fn build(
    table: &[u8],
    ids: &mut [u64],
    hashes: &mut [u32],
    counts: &mut [i64],
) -> Result<(), Refusal>
    ensures { built (number_of (result_err result)) (columns ids.new hashes.new counts.new)
        ≡ estimator_call first_eight 0 table.now (columns ids.old hashes.old counts.old) }
{
    let formed = crate::table::is_table(table);
    let roomy = crate::forms::has_room(ids, hashes, counts, 2528);
    if !formed {
        return Err(Refusal::Form);
    }
    if !roomy {
        return Err(Refusal::Room);
    }
    fill(table, ids, hashes, counts);
    Ok(())
}

fn fill(table: &[u8], ids: &mut [u64], hashes: &mut [u32], counts: &mut [i64])
    requires { (is_table first_eight table.now ≡ true) × (has_room 2528 (columns ids.old hashes.old counts.old) ≡ true) }
    ensures { columns ids.new hashes.new counts.new
        ≡ filled 2528 (filter_of (estimator_rule 0) (ids_of first_eight table.now)) (columns ids.old hashes.old counts.old) }
{
    let tab = bucket::crc::tables();
    crate::clearing::clear_columns(ids, hashes, counts, 2528);
    crate::adding::add_table(&tab, table, ids, hashes, counts, 79, 0, 3, 31);
}

// The estimate of how many IDs are in only one of the tables that two estimators were made from. The second is subtracted from the first, in the
// first's columns, and the difference read stratum by stratum, the highest first, up to the first that is not complete. Where nothing is listed
// above that one, nothing is known.
// Refused: a COUNT outside 0 to 2^32 − 1 in either, then a column shorter than 2,528; then nothing is changed.
#[tactic(auto, unfolding(crate::specs::Estimator::estimate_call, crate::specs::Estimator::estimate_refusal))]
pub fn estimate(
    ids: &mut [u64],
    hashes: &mut [u32],
    counts: &mut [i64],
    ids2: &[u64],
    hashes2: &[u32],
    counts2: &[i64],
) -> Result<Estimate, Refusal>
    ensures { estimated (estimate_answer result) (columns ids.new hashes.new counts.new)
        ≡ estimate_call 0 (columns ids.old hashes.old counts.old)
        (columns ids2.now hashes2.now counts2.now) }
{
    let counted = are_counts(counts, counts2);
    let both_roomy = have_room(ids, hashes, counts, ids2, hashes2, counts2);
    if !counted {
        return Err(Refusal::Form);
    }
    if !both_roomy {
        return Err(Refusal::Room);
    }
    crate::strata::subtract(ids, hashes, counts, ids2, hashes2, counts2, 2528);
    let tab = bucket::crc::tables();
    Ok(crate::strata::read_all(&tab, ids, hashes, counts, 0))
}

fn are_counts(counts: &[i64], counts2: &[i64]) -> bool
    ensures { result ≡ (are_counts 2528 counts.now && are_counts 2528 counts2.now) }
{
    crate::forms::are_counts(counts, 2528) & crate::forms::are_counts(counts2, 2528)
}

fn have_room(
    ids: &[u64],
    hashes: &[u32],
    counts: &[i64],
    ids2: &[u64],
    hashes2: &[u32],
    counts2: &[i64],
) -> bool
    ensures { result ≡ (has_room 2528 (columns ids.now hashes.now counts.now)
        && has_room 2528 (columns ids2.now hashes2.now counts2.now)) }
{
    crate::forms::has_room(ids, hashes, counts, 2528)
        & crate::forms::has_room(ids2, hashes2, counts2, 2528)
}
