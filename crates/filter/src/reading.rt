// Reading: the received columns become ours minus received, and the difference is peeled.
ghost use Rattle.std.specs.Prelude.{◌≡◌, ◌&&◌, [], ◌≤◌, leb, length};
ghost use Rattle.std.specs.Result.{result_err};
ghost use Rattle.bucket.specs.Bucket.{𝟎};
ghost use Rattle.bucket.specs.Columns.{columns};
ghost use Rattle.bucket.specs.Crc.{crc_tables};
ghost use Rattle.filter.specs.Answers.{number_of, answer_of};
ghost use Rattle.filter.specs.Table.{first_eight, ids_of, is_table};
ghost use Rattle.filter.specs.Calls.{are_counts, has_room, filled, listed_into, answered, unread, subtracted, outcome_of, looked_of, read_by, read_call, clear_call};
ghost use Rattle.filter.specs.Steps.{Ready, Received, Wide, Peels};

use crate::answers::{Reading, Refusal, Unread, Verdict};
use crate::peeling::Peeled;
use crate::repeats::Trees;
use crate::table::Table;

// Reads the difference of our table and a received filter, at a size and a salt, into two lists: IDs that are only ours, and only theirs.
// Refused: a bad table or a COUNT outside 0 to 2^32 − 1, then a size or salt out of range, then a column or list shorter than size; then
// nothing is changed. A false reading is refused too, and leaves zeros. Only the first size places of each slice are judged and written.
#[tactic(auto, unfolding(crate::specs::Calls::read_call, crate::specs::Calls::read_refusal))]
pub fn read(
    table: &[u8],
    ids: &mut [u64],
    hashes: &mut [u32],
    counts: &mut [i64],
    ours: &mut [u64],
    theirs: &mut [u64],
    size: u32,
    salt: u32,
) -> Result<Reading, Unread>
    ensures { answered (answer_of result) (columns ids.new hashes.new counts.new) ours.new theirs.new
        ≡ read_call first_eight size salt table.now (columns ids.old hashes.old counts.old) ours.old theirs.old }
{
    let formed = is_well_formed(table, counts, size);
    let ranged = crate::forms::in_range(size, salt);
    let roomy = has_all_room(ids, hashes, counts, ours, theirs, size);
    if !formed {
        return Err(Unread::Form);
    }
    if !ranged {
        return Err(Unread::Range);
    }
    if !roomy {
        return Err(Unread::Room);
    }
    read_difference(table, ids, hashes, counts, ours, theirs, size, salt)
}

// Makes columns and lists zero in the first size places, as a false reading leaves them. Refused: a column or list shorter than size; then nothing
// is changed.
#[tactic(auto, using(crate::proofs::CallLaws::clear_ready), unfolding(crate::specs::Calls::clear_call))]
pub fn clear(
    ids: &mut [u64],
    hashes: &mut [u32],
    counts: &mut [i64],
    ours: &mut [u64],
    theirs: &mut [u64],
    size: u32,
) -> Result<(), Refusal>
    ensures { unread (number_of (result_err result)) (columns ids.new hashes.new counts.new) ours.new theirs.new
        ≡ clear_call size (columns ids.old hashes.old counts.old) ours.old theirs.old }
{
    if !has_all_room(ids, hashes, counts, ours, theirs, size) {
        return Err(Refusal::Room);
    }
    clear_all(ids, hashes, counts, ours, theirs, size as usize);
    Ok(())
}

// Reads what no test refuses.
fn read_difference(
    table: &[u8],
    ids: &mut [u64],
    hashes: &mut [u32],
    counts: &mut [i64],
    ours: &mut [u64],
    theirs: &mut [u64],
    size: u32,
    salt: u32,
) -> Result<Reading, Unread>
    requires { Ready size salt table.now (columns ids.old hashes.old counts.old) ours.old theirs.old }
    ensures { answered (answer_of result) (columns ids.new hashes.new counts.new) ours.new theirs.new
        ≡ read_by (ids_of first_eight table.now) size salt (columns ids.old hashes.old counts.old) ours.old theirs.old }
{
    let p = peel_difference(table, ids, hashes, counts, ours, theirs, size, salt);
    let looked = p.looked;
    if let Some(n) = p.listed {
        let a = n.ours;
        let b = n.theirs;
        let ours = &ours[..a];
        let theirs = &theirs[..b];
        let v = crate::judging::judge(
            Table { bytes: table },
            ids,
            hashes,
            counts,
            ours,
            theirs,
            size,
        );
        match v {
            Verdict::Complete => {
                return Ok(Reading {
                    complete: true,
                    ours: a,
                    theirs: b,
                    looked,
                });
            }
            Verdict::Stuck => {
                return Ok(Reading {
                    complete: false,
                    ours: a,
                    theirs: b,
                    looked,
                });
            }
            Verdict::False => {}
        }
    }
    clear_all(ids, hashes, counts, ours, theirs, size as usize);
    Err(Unread::Untrue { looked })
}

fn is_well_formed(table: &[u8], counts: &[i64], size: u32) -> bool
    ensures { result ≡ (is_table first_eight table.now && are_counts size counts.now) }
{
    crate::table::is_table(table) & crate::forms::are_counts(counts, size)
}

fn has_all_room(
    ids: &[u64],
    hashes: &[u32],
    counts: &[i64],
    ours: &[u64],
    theirs: &[u64],
    size: u32,
) -> bool
    ensures { result ≡ (has_room size (columns ids.now hashes.now counts.now)
        && (leb size (length ours.now) && leb size (length theirs.now))) }
{
    crate::forms::has_room(ids, hashes, counts, size)
        & crate::forms::lists_have_room(ours, theirs, size)
}

// The CRC tables, and the trees in which repeats are found, are made once a call and lent down.
fn peel_difference(
    table: &[u8],
    ids: &mut [u64],
    hashes: &mut [u32],
    counts: &mut [i64],
    ours: &mut [u64],
    theirs: &mut [u64],
    size: u32,
    salt: u32,
) -> Peeled
    requires { Ready size salt table.now (columns ids.old hashes.old counts.old) ours.old theirs.old }
    ensures { Peels size (outcome_of (ids_of first_eight table.now) size salt (columns ids.old hashes.old counts.old))
        (columns ids.old hashes.old counts.old) (listed_into size [] ours.old) (listed_into size [] theirs.old) result.listed
        (columns ids.new hashes.new counts.new) ours.new theirs.new
        × (result.looked ≡ looked_of (ids_of first_eight table.now) size salt (columns ids.old hashes.old counts.old)) }
{
    let tab = bucket::crc::tables();
    subtract(&tab, table, ids, hashes, counts, size, salt);
    crate::clearing::clear_list(ours, size as usize);
    crate::clearing::clear_list(theirs, size as usize);
    let k = bucket::places::place_count(size);
    let mut trees = Trees::new();
    crate::peeling::peel(
        &tab, ids, hashes, counts, ours, theirs, &mut trees, size, salt, k,
    )
}

// The received columns become ours minus received: their signs are turned, and our elements added.
fn subtract(
    tab: &[u32; 2048],
    table: &[u8],
    ids: &mut [u64],
    hashes: &mut [u32],
    counts: &mut [i64],
    size: u32,
    salt: u32,
)
    requires { (tab.now ≡ crc_tables) × Received size salt table.now (columns ids.old hashes.old counts.old) }
    ensures { columns ids.new hashes.new counts.new
        ≡ filled size (subtracted (ids_of first_eight table.now) size salt (columns ids.old hashes.old counts.old))
        (columns ids.old hashes.old counts.old) }
{
    crate::clearing::negate(counts, size as usize);
    let k = bucket::places::place_count(size);
    crate::adding::add_table(tab, table, ids, hashes, counts, size, salt, k, 0);
}

fn clear_all(
    ids: &mut [u64],
    hashes: &mut [u32],
    counts: &mut [i64],
    ours: &mut [u64],
    theirs: &mut [u64],
    n: usize,
)
    requires { Wide n (columns ids.old hashes.old counts.old) × (n ≤ length ours.old) × (n ≤ length theirs.old) }
    ensures { (columns ids.new hashes.new counts.new ≡ filled n (λ i. 𝟎) (columns ids.old hashes.old counts.old))
        × (ours.new ≡ listed_into n [] ours.old) × (theirs.new ≡ listed_into n [] theirs.old) }
{
    crate::clearing::clear_columns(ids, hashes, counts, n);
    crate::clearing::clear_list(ours, n);
    crate::clearing::clear_list(theirs, n);
}
