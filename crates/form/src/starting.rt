// The start of each side.
ghost use Rattle.std.specs.Prelude.{◌≡◌, []};
ghost use Rattle.filter.specs.Answers.{refusal_number};
ghost use Rattle.filter.specs.Table.{first_eight};
ghost use Rattle.ledger.specs.Calls.{answered, no_session, numbered, starting, start_receiver, start_sender};

use filter::answers::Refusal;
use ledger::numbers::{ABORTED, Answer, EXPECTING, Numbers, PASSIVE};

// The receiver of a filter. Refused: a bad table, then marks shorter than 8,192; then nothing is changed.
pub fn start_receiver(table: &[u8], marks: &mut [u8]) -> Answer
    ensures { starting result marks.new [] ≡ start_receiver first_eight table.now marks.old }
{
    if !filter::table::is_table(table) {
        return no_session(Refusal::Form);
    }
    if marks.len() < 8192 {
        return no_session(Refusal::Room);
    }
    marks[..filter::table::count(table)].fill(0);
    crate::numbers::answered(0, 0, fresh(EXPECTING, 0, 37, 0))
}

// The sender of a filter: its filter at a size and a salt is written from the start of the outgoing buffer. Refused: a bad table, then a size or
// salt out of range, then marks shorter than 8,192 or a buffer shorter than 295,008; then nothing is changed.
pub fn start_sender(table: &[u8], size: u32, salt: u32, marks: &mut [u8], out: &mut [u8]) -> Answer
    ensures { starting result marks.new out.new ≡ start_sender first_eight size salt table.now marks.old out.old }
{
    if !filter::table::is_table(table) {
        return no_session(Refusal::Form);
    }
    if !filter::forms::in_range(size, salt) {
        return no_session(Refusal::Range);
    }
    if marks.len() < 8192 || out.len() < 295008 {
        return no_session(Refusal::Room);
    }
    marks[..filter::table::count(table)].fill(0);
    let sent = crate::sending::send_filter(table, size, salt, out).unwrap();
    crate::numbers::answered(sent, 0, fresh(PASSIVE, 1, size, salt))
}

// A refused start: no session.
fn no_session(why: Refusal) -> Answer
    ensures { result ≡ answered (refusal_number why) 0 0 no_session }
{
    crate::numbers::refuse(why, fresh(ABORTED, 0, 0, 0))
}

// The numbers of a session in which nothing has happened.
fn fresh(state: u32, first: u32, size: u32, salt: u32) -> Numbers
    ensures { result ≡ numbered state first size salt 0 0 0 0 0 }
{
    Numbers {
        state,
        first,
        size,
        salt,
        width: 0,
        swaps: 0,
        done: 0,
        demanded: 0,
        inquired: 0,
    }
}
