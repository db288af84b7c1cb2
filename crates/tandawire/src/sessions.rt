// The session, for C: a start for each side, and one step.
ghost use Rattle.std.specs.Prelude.{◌≡◌, []};
ghost use Rattle.bucket.specs.Columns.{columns};
ghost use Rattle.filter.specs.Table.{first_eight};
ghost use Rattle.ledger.specs.Calls.{given, left, starting, start_receiver, start_sender, step_call};

use ledger::numbers::{Answer, Numbers};

// The receiver of a filter.
#[unsafe(no_mangle)]
pub extern "C" fn tandawire_start_receiver(table: &[u8], marks: &mut [u8]) -> Answer
    ensures { starting result marks.new [] ≡ start_receiver first_eight table.now marks.old }
{
    form::starting::start_receiver(table, marks)
}

// The sender of a filter.
#[unsafe(no_mangle)]
pub extern "C" fn tandawire_start_sender(
    table: &[u8],
    size: u32,
    salt: u32,
    marks: &mut [u8],
    out: &mut [u8],
) -> Answer
    ensures { starting result marks.new out.new ≡ start_sender first_eight size salt table.now marks.old out.old }
{
    form::starting::start_sender(table, size, salt, marks, out)
}

// One message taken.
#[unsafe(no_mangle)]
pub extern "C" fn tandawire_step(
    numbers: Numbers,
    table: &[u8],
    records: &mut [u8],
    marks: &mut [u8],
    inquired: &mut [u64],
    ids: &mut [u64],
    hashes: &mut [u32],
    counts: &mut [i64],
    ours: &mut [u64],
    theirs: &mut [u64],
    hash: &[u8],
    message: &[u8],
    out: &mut [u8],
) -> Answer
    ensures { left result records.new marks.new inquired.new (columns ids.new hashes.new counts.new) ours.new theirs.new out.new
        ≡ step_call first_eight (given numbers table.now records.old marks.old inquired.old (columns ids.old hashes.old counts.old) ours.old theirs.old hash.now message.now out.old) }
{
    session::stepping::step(
        numbers, table, records, marks, inquired, ids, hashes, counts, ours, theirs, hash, message,
        out,
    )
}
