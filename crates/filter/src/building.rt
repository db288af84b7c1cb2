// Building: the filter of a table, in three lent columns.
ghost use Rattle.std.specs.Prelude.{◌≡◌, true};
ghost use Rattle.std.specs.Result.{result_err};
ghost use Rattle.bucket.specs.Columns.{columns};
ghost use Rattle.filter.specs.Answers.{number_of};
ghost use Rattle.filter.specs.Table.{first_eight, ids_of, is_table};
ghost use Rattle.filter.specs.Filter.{filter_rule, filter_of};
ghost use Rattle.filter.specs.Calls.{in_range, has_room, filled, built, build_call};

use crate::answers::Refusal;

// The filter made by the rules from a table, at a size and a salt, in the first size places of the columns.
// Refused: a bad table, then a size or salt out of range, then a column shorter than size; then nothing is changed.
#[tactic(auto, unfolding(crate::specs::Calls::build_call, crate::specs::Calls::build_refusal))]
pub fn build(
    table: &[u8],
    ids: &mut [u64],
    hashes: &mut [u32],
    counts: &mut [i64],
    size: u32,
    salt: u32,
) -> Result<(), Refusal>
    ensures { built (number_of (result_err result)) (columns ids.new hashes.new counts.new)
        ≡ build_call first_eight size salt table.now (columns ids.old hashes.old counts.old) }
{
    let formed = crate::table::is_table(table);
    let ranged = crate::forms::in_range(size, salt);
    let roomy = crate::forms::has_room(ids, hashes, counts, size);
    if !formed {
        return Err(Refusal::Form);
    }
    if !ranged {
        return Err(Refusal::Range);
    }
    if !roomy {
        return Err(Refusal::Room);
    }
    fill(table, ids, hashes, counts, size, salt);
    Ok(())
}

fn fill(table: &[u8], ids: &mut [u64], hashes: &mut [u32], counts: &mut [i64], size: u32, salt: u32)
    requires { (is_table first_eight table.now ≡ true) × (in_range size salt ≡ true)
        × (has_room size (columns ids.old hashes.old counts.old) ≡ true) }
    ensures { columns ids.new hashes.new counts.new
        ≡ filled size (filter_of (filter_rule size salt) (ids_of first_eight table.now)) (columns ids.old hashes.old counts.old) }
{
    let tab = bucket::crc::tables();
    crate::clearing::clear_columns(ids, hashes, counts, size as usize);
    let k = bucket::places::place_count(size);
    crate::adding::add_table(&tab, table, ids, hashes, counts, size, salt, k, 0);
}
