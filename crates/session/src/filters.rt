// IBF and IBF LAST: slices laid, a whole filter read, and what follows from how the reading ended.
ghost use Rattle.std.specs.Prelude.{◌≡◌, ◌++◌, ◌≤◌, ◌<◌, length, take};
ghost use Rattle.bucket.specs.Columns.{columns};
ghost use Rattle.bucket.specs.Digits.{packed};
ghost use Rattle.bucket.specs.Lists.{over};
ghost use Rattle.filter.specs.Answers.{answer_of};
ghost use Rattle.filter.specs.Table.{first_eight, hashes_of, ids_of};
ghost use Rattle.message.specs.declared.kinds.Message.TheVariants.{Ibf, IbfLast};
ghost use Rattle.message.specs.Reading.{content};
ghost use Rattle.message.specs.Writing.{inquiries_of, offers_of};
ghost use Rattle.session.specs.Moves.{inserted_all};
ghost use Rattle.session.specs.Ready.{Opens, Sent, Reads, Lays, Whole, Ended, Fated};
ghost use Rattle.session.specs.Turns.{settled, mark_all, hashes_at, open_turn, open_turn', slice_turn, slice_turn', last_turn, last_turn', untouched, whole_read};

use filter::answers::{Reading, Refusal, Unread};
use form::grid::column;
use ledger::numbers::{Answer, Numbers};
use message::kinds::{Kind, Slice};

// What follows a reading after which the session goes on.
#[derive(Clone, Copy)]
pub(crate) enum Fate {
    // it is complete, with the lengths of the two lists: the session opens
    Opens { ours: usize, theirs: usize },
    // it is not: the sides swap, and what refused the reading is answered beside
    Swaps { beside: Option<Refusal> },
}

// A slice that is not the last.
pub(crate) fn on_slice(
    numbers: Numbers,
    message: &[u8],
    ids: &mut [u64],
    hashes: &mut [u32],
    counts: &mut [i64],
    slice: Slice,
) -> Result<Answer, Refusal>
    requires { Lays message.now (Ibf slice) (columns ids.old hashes.old counts.old) }
    ensures { slice_turn' (settled numbers result) (columns ids.new hashes.new counts.new)
        ≡ slice_turn numbers (content (Ibf slice) message.now) slice (columns ids.old hashes.old counts.old) }
{
    if !form::grid::admits_slice(numbers, column(Kind::Ibf)) {
        return Err(Refusal::OutOfTurn);
    }
    if !form::grid::is_placed(numbers, slice.size, slice.offset, slice.salt, slice.width) {
        return Err(Refusal::Malformed);
    }
    message::laying::lay(message, ids, hashes, counts).unwrap();
    let next = form::numbers::sliced(numbers, slice.size, slice.salt, slice.width);
    Ok(form::numbers::answered(0, 0, next))
}

// The slice that completes a filter.
pub(crate) fn on_last(
    numbers: Numbers,
    table: &[u8],
    marks: &mut [u8],
    inquired: &mut [u64],
    ids: &mut [u64],
    hashes: &mut [u32],
    counts: &mut [i64],
    ours: &mut [u64],
    theirs: &mut [u64],
    message: &[u8],
    out: &mut [u8],
    slice: Slice,
) -> Result<Answer, Refusal>
    requires { Reads numbers table.now message.now slice (columns ids.old hashes.old counts.old) ours.old theirs.old marks.old inquired.old out.old }
    ensures { last_turn' (settled numbers result) marks.new inquired.new (untouched (columns ids.new hashes.new counts.new) ours.new theirs.new) out.new
        ≡ last_turn numbers table.now (content (IbfLast slice) message.now) slice (columns ids.old hashes.old counts.old) ours.old theirs.old marks.old inquired.old out.old }
{
    if !form::grid::admits_slice(numbers, column(Kind::IbfLast)) {
        return Err(Refusal::OutOfTurn);
    }
    let Slice { size, salt, .. } = slice;
    if !form::grid::is_placed(numbers, size, slice.offset, salt, slice.width) {
        return Err(Refusal::Malformed);
    }
    let fate = read_whole(
        numbers.swaps,
        table,
        ids,
        hashes,
        counts,
        ours,
        theirs,
        message,
        slice,
    )?;
    match fate {
        Fate::Opens { ours: a, theirs: b } => {
            let ours = &ours[..a];
            let theirs = &theirs[..b];
            Ok(open(
                numbers, table, marks, inquired, ours, theirs, out, size, salt,
            ))
        }
        Fate::Swaps { beside } => {
            let next = crate::swapping::swapped(numbers, size, salt);
            let sent = form::sending::send_filter(table, next.size, next.salt, out).unwrap();
            Ok(Answer {
                refusal: beside.map_or(0, u32::from),
                sent,
                due: 0,
                next,
            })
        }
    }
}

// The last slice laid and the filter read; columns and lists are cleared where the session may not go on.
fn read_whole(
    swaps: u32,
    table: &[u8],
    ids: &mut [u64],
    hashes: &mut [u32],
    counts: &mut [i64],
    ours: &mut [u64],
    theirs: &mut [u64],
    message: &[u8],
    slice: Slice,
) -> Result<Fate, Refusal>
    requires { Whole table.now message.now slice (columns ids.old hashes.old counts.old) ours.old theirs.old }
    ensures { Ended (whole_read table.now message.now slice (columns ids.old hashes.old counts.old) ours.old theirs.old) table.now slice.size swaps result
        (untouched (columns ids.new hashes.new counts.new) ours.new theirs.new) }
{
    message::laying::lay(message, ids, hashes, counts).unwrap();
    let Slice { size, salt, .. } = slice;
    let reading = filter::reading::read(table, ids, hashes, counts, ours, theirs, size, salt);
    let fate = fate_of(reading, filter::table::count(table), swaps);
    if fate.is_err() {
        filter::reading::clear(ids, hashes, counts, ours, theirs, size).unwrap();
    }
    fate
}

// By how a reading ended: what follows, or 10 or 9 where the session may not go on.
#[tactic(auto, unfolding(crate::specs::Turns::fate_of))]
fn fate_of(reading: Result<Reading, Unread>, nt: usize, swaps: u32) -> Result<Fate, Refusal>
    requires { nt ≤ 4096 }
    ensures { Fated (answer_of reading) nt swaps result }
{
    match reading {
        Ok(found) if found.complete => {
            if 4096 - nt < found.theirs {
                return Err(Refusal::Limit);
            }
            Ok(Fate::Opens {
                ours: found.ours,
                theirs: found.theirs,
            })
        }
        _ if 16 <= swaps => Err(Refusal::Swaps),
        Ok(_) => Ok(Fate::Swaps { beside: None }),
        Err(unread) => Ok(Fate::Swaps {
            beside: Some(Refusal::from(unread)),
        }),
    }
}

// A complete reading: the elements of ours are offered, theirs inquired, and DONE goes if there is none.
fn open(
    numbers: Numbers,
    table: &[u8],
    marks: &mut [u8],
    inquired: &mut [u64],
    ours: &[u64],
    theirs: &[u64],
    out: &mut [u8],
    size: u32,
    salt: u32,
) -> Answer
    requires { Opens table.now ours.now marks.old × (length ours.now ≤ 4096) × (length theirs.now ≤ 4096) × (salt < 64)
        × (4096 ≤ length inquired.old) × (295008 ≤ length out.old) }
    ensures { open_turn' result marks.new inquired.new out.new ≡ open_turn numbers table.now size salt ours.now theirs.now marks.old inquired.old out.old }
{
    let sent = tell(table, marks, inquired, ours, theirs, out, salt);
    if theirs.is_empty() {
        let tables = crate::places::Tables { table, known: &[] };
        let check = crate::checking::checksum(tables, marks);
        let end = crate::sending::send_done(&check, out, sent);
        return form::numbers::answered(end, 0, form::numbers::opened(numbers, size, salt, 1, 0));
    }
    let wanted = theirs.len() as u32;
    form::numbers::answered(
        sent,
        0,
        form::numbers::opened(numbers, size, salt, 0, wanted),
    )
}

// The elements of ours are marked offered and theirs put among the inquired; INQUIRY and OFFER go out. Answers where these messages end.
fn tell(
    table: &[u8],
    marks: &mut [u8],
    inquired: &mut [u64],
    ours: &[u64],
    theirs: &[u64],
    out: &mut [u8],
    salt: u32,
) -> usize
    requires { Opens table.now ours.now marks.old × (length ours.now ≤ 4096) × (length theirs.now ≤ 4096) × (salt < 64)
        × (4096 ≤ length inquired.old) × (295008 ≤ length out.old) }
    ensures { (marks.new ≡ mark_all (ids_of first_eight table.now) ours.now marks.old)
        × (inquired.new ≡ inserted_all 0 theirs.now inquired.old)
        × Sent (inquiries_of salt theirs.now ++ offers_of (hashes_at (hashes_of table.now) (ids_of first_eight table.now) ours.now)) out.old out.new result }
{
    let mut hashes = [0u8; 262144];
    offer_all(table, marks, ours, &mut hashes);
    crate::inserting::insert_ids(theirs, inquired);
    let next = crate::sending::send_inquiries(theirs, salt, out, 0);
    crate::sending::send_offers(&hashes[..64 * ours.len()], out, next)
}

// The elements of a list of IDs of the table marked offered, and their hashes gathered in order.
fn offer_all(table: &[u8], marks: &mut [u8], ours: &[u64], hashes: &mut [u8])
    requires { Opens table.now ours.now marks.old × (length ours.now ≤ 4096) × (262144 ≤ length hashes.old) }
    ensures { (marks.new ≡ mark_all (ids_of first_eight table.now) ours.now marks.old)
        × (hashes.new ≡ over 0 (packed 512 (hashes_at (hashes_of table.now) (ids_of first_eight table.now) ours.now)) hashes.old) }
{
    for (i, id) in ours.iter().enumerate() {
        let p = filter::table::id_position(table, *id);
        marks[p] = 2;
        hashes[64 * i..64 * i + 64].copy_from_slice(crate::places::nth_hash(table, p));
    }
}
