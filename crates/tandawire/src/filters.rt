// Building and reading.
ghost use Rattle.std.specs.Prelude.{◌≡◌};
ghost use Rattle.bucket.specs.Columns.{columns};
ghost use Rattle.filter.specs.Table.{first_eight};
ghost use Rattle.filter.specs.Calls.{built, build_call, answered, read_call};

use filter::answers::ReadAnswer;

// The filter made by the rules from a table, in the first size places of three columns; answers the refusal number, 0 for none.
#[unsafe(no_mangle)]
pub extern "C" fn tandawire_build(
    table: &[u8],
    ids: &mut [u64],
    hashes: &mut [u32],
    counts: &mut [i64],
    size: u32,
    salt: u32,
) -> u32
    ensures { built result (columns ids.new hashes.new counts.new)
        ≡ build_call first_eight size salt table.now (columns ids.old hashes.old counts.old) }
{
    filter::answers::number(filter::building::build(table, ids, hashes, counts, size, salt))
}

// The received columns become ours minus received, peeled; IDs only in our table are listed in ours, those only in theirs in theirs.
#[unsafe(no_mangle)]
pub extern "C" fn tandawire_read(
    table: &[u8],
    ids: &mut [u64],
    hashes: &mut [u32],
    counts: &mut [i64],
    ours: &mut [u64],
    theirs: &mut [u64],
    size: u32,
    salt: u32,
) -> ReadAnswer
    ensures { answered result (columns ids.new hashes.new counts.new) ours.new theirs.new
        ≡ read_call first_eight size salt table.now (columns ids.old hashes.old counts.old) ours.old theirs.old }
{
    ReadAnswer::from(filter::reading::read(table, ids, hashes, counts, ours, theirs, size, salt))
}
