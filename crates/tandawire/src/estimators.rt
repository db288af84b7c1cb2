// Estimating.
ghost use Rattle.std.specs.Prelude.{◌≡◌};
ghost use Rattle.bucket.specs.Columns.{columns};
ghost use Rattle.filter.specs.Table.{first_eight};
ghost use Rattle.filter.specs.Calls.{built};
ghost use Rattle.filter.specs.Estimator.{estimator_call, estimated, estimate_call};

use filter::answers::EstimateAnswer;

// The estimator of a table, in the first 2,528 places of three columns; answers the refusal number, 0 for none.
#[unsafe(no_mangle)]
pub extern "C" fn tandawire_estimator_build(
    table: &[u8],
    ids: &mut [u64],
    hashes: &mut [u32],
    counts: &mut [i64],
) -> u32
    ensures { built result (columns ids.new hashes.new counts.new)
        ≡ estimator_call first_eight 0 table.now (columns ids.old hashes.old counts.old) }
{
    filter::answers::number(filter::estimator::build(table, ids, hashes, counts))
}

// How many IDs are in only one of the tables that two estimators were made from, estimated; the first's columns become what remains.
#[unsafe(no_mangle)]
pub extern "C" fn tandawire_estimate(
    ids: &mut [u64],
    hashes: &mut [u32],
    counts: &mut [i64],
    ids2: &[u64],
    hashes2: &[u32],
    counts2: &[i64],
) -> EstimateAnswer
    ensures { estimated result (columns ids.new hashes.new counts.new)
        ≡ estimate_call 0 (columns ids.old hashes.old counts.old)
        (columns ids2.now hashes2.now counts2.now) }
{
    EstimateAnswer::from(filter::estimator::estimate(ids, hashes, counts, ids2, hashes2, counts2))
}
