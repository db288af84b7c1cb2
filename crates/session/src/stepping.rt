// One step of the protocol.
ghost use Rattle.std.specs.Prelude.{◌≡◌, false};
ghost use Rattle.bucket.specs.Columns.{columns};
ghost use Rattle.filter.specs.Table.{first_eight};
ghost use Rattle.message.specs.Laying.{is_slice};
ghost use Rattle.message.specs.Walking.{exactly_one};
ghost use Rattle.ledger.specs.Calls.{given, left, step_call};
ghost use Rattle.session.specs.Judged.{InForm};
ghost use Rattle.session.specs.Steps.{LedgerSteps, column_of};
ghost use Rattle.session.specs.Turns.{settled};

use filter::answers::Refusal;
use form::tallying::Tally;
use ledger::numbers::{Answer, Numbers};
use message::kinds::Message;

// Takes one message in a state, and answers the next state and what is to be sent. Every slice is lent and comes back; specs/Calls says what each
// holds after every call, refused ones too.
pub fn step(
    numbers: Numbers,
    table: &[u8],
    records: &mut [u8],
    marks: &mut [u8],
    inquired: &mut [u64],
    ids: &mut [u64],
    hashes: &mut [u32],
    counts: &mut [i64],
    ours: &mut [u64],
    theirs: &mut [u64],
    hash: &[u8],
    message: &[u8],
    out: &mut [u8],
) -> Answer
    ensures { left result records.new marks.new inquired.new (columns ids.new hashes.new counts.new) ours.new theirs.new out.new
        ≡ step_call first_eight (given numbers table.now records.old marks.old inquired.old (columns ids.old hashes.old counts.old) ours.old theirs.old hash.now message.now out.old) }
{
    let judged = form::tallying::judge(numbers, table, records, marks, inquired, counts);
    let roomy = form::rooms::has_room(
        records.len(),
        marks.len(),
        inquired.len(),
        ids.len(),
        hashes.len(),
        counts.len(),
        ours.len(),
        theirs.len(),
        hash.len(),
        out.len(),
    );
    let tally = match form::rooms::admit(judged, roomy, numbers.state) {
        Err(why) => return form::numbers::refuse(why, numbers),
        Ok(tally) => tally,
    };
    let Some(m) = message::reading::read(message) else {
        return form::numbers::abort(Refusal::Malformed, numbers);
    };
    let taken = match m {
        Message::Ibf(slice) => {
            crate::filters::on_slice(numbers, message, ids, hashes, counts, slice)
        }
        Message::IbfLast(slice) => crate::filters::on_last(
            numbers, table, marks, inquired, ids, hashes, counts, ours, theirs, message, out, slice,
        ),
        _ => on_ledger(
            numbers, table, records, marks, inquired, hash, message, out, m, tally,
        ),
    };
    taken.unwrap_or_else(|why| form::numbers::abort(why, numbers))
}

// The messages that no columns are needed for.
fn on_ledger(
    numbers: Numbers,
    table: &[u8],
    records: &mut [u8],
    marks: &mut [u8],
    inquired: &[u64],
    hash: &[u8],
    message: &[u8],
    out: &mut [u8],
    m: Message,
    tally: Tally,
) -> Result<Answer, Refusal>
    requires { InForm numbers table.now records.old marks.old inquired.now hash.now out.old tally × (exactly_one message.now ≡ Some m) × (is_slice m ≡ false) }
    ensures { LedgerSteps numbers table.now records.old marks.old inquired.now hash.now message.now out.old m tally (settled numbers result) records.new marks.new out.new }
{
    if !form::grid::admits(numbers.state, form::grid::column(m.kind())) {
        return Err(Refusal::OutOfTurn);
    }
    match m {
        Message::Inquiry { salt, count } => {
            crate::lists::on_inquiry(numbers, table, records, marks, message, out, salt, count)
        }
        Message::Offer { count } => {
            let c = tally.concerned;
            crate::lists::on_offer(
                numbers, table, records, marks, inquired, message, out, count, c,
            )
        }
        Message::Demand { count } => {
            crate::lists::on_demand(numbers, table, records, marks, message, out, count)
        }
        Message::Element { length: _ } => {
            let came = tally.came;
            let unmet = tally.unmet;
            crate::ends::on_element(numbers, table, records, marks, hash, out, came, unmet)
        }
        Message::Done => {
            let unmet = tally.unmet;
            crate::ends::on_done(numbers, table, records, marks, message, out, unmet)
        }
        Message::Ibf(_) | Message::IbfLast(_) => unreachable!(),
    }
}
