// ELEMENT and DONE: what a session ends with. Both are asked once the grid has admitted the message.
ghost use Rattle.std.specs.Prelude.{◌≡◌, ◌*◌, ◌≤◌, ◌<◌, length, take};
ghost use Rattle.session.specs.Ready.{Kept};
ghost use Rattle.session.specs.Steps.{DoneSteps, ElementSteps, LastSteps};
ghost use Rattle.session.specs.Turns.{settled};

use crate::places::Tables;
use filter::answers::Refusal;
use ledger::numbers::{ACTIVE, Answer, FINISHED, Numbers, PASSIVE, WAITING};

// Where the far checksum stands in the records.
pub(crate) const FAR: usize = 262144;

pub(crate) fn on_element(
    numbers: Numbers,
    table: &[u8],
    records: &[u8],
    marks: &mut [u8],
    hash: &[u8],
    out: &mut [u8],
    came: usize,
    unmet: usize,
) -> Result<Answer, Refusal>
    requires { Kept table.now (take (64 * numbers.demanded) records.now) marks.old × (262208 ≤ length records.now) × (numbers.demanded ≤ 4096)
        × (64 ≤ length hash.now) × (295008 ≤ length out.old) × (came ≤ 8192) }
    ensures { ElementSteps numbers table.now records.now marks.old hash.now out.old came unmet (settled numbers result) marks.new out.new }
{
    let tables = Tables {
        table,
        known: &records[..64 * numbers.demanded as usize],
    };
    let p = crate::places::unmet_place(tables, marks, &hash[..64]).ok_or(Refusal::Breach)?;
    let last = (numbers.state == WAITING) & (unmet == 1);
    let all = (numbers.state == ACTIVE) & (came + 1 == numbers.inquired as usize);
    if all | last {
        return last_element(numbers, table, records, marks, hash, out, p, last);
    }
    marks[p] = 8;
    Ok(form::numbers::changed(numbers, numbers.state, numbers.done, numbers.demanded, 0, 0))
}

// An element after which our DONE goes: only here the checksum is made. The last one of all is compared.
fn last_element(
    numbers: Numbers,
    table: &[u8],
    records: &[u8],
    marks: &mut [u8],
    hash: &[u8],
    out: &mut [u8],
    p: usize,
    last: bool,
) -> Result<Answer, Refusal>
    requires { Kept table.now (take (64 * numbers.demanded) records.now) marks.old × (262208 ≤ length records.now) × (numbers.demanded ≤ 4096)
        × (64 ≤ length hash.now) × (295008 ≤ length out.old) × (p < 8192) }
    ensures { LastSteps numbers table.now records.now marks.old hash.now out.old p last (settled numbers result) marks.new out.new }
{
    let tables = Tables {
        table,
        known: &records[..64 * numbers.demanded as usize],
    };
    let mut check = crate::checking::checksum(tables, marks);
    crate::checking::xor_into(&mut check, &hash[..64]);
    if last && records[FAR..FAR + 64] != check[..] {
        return Err(Refusal::Checksum);
    }
    marks[p] = 8;
    let sent = crate::sending::send_done(&check, out, 0);
    let next = if last { FINISHED } else { numbers.state };
    Ok(form::numbers::changed(numbers, next, 1, numbers.demanded, sent, 0))
}

pub(crate) fn on_done(
    numbers: Numbers,
    table: &[u8],
    records: &mut [u8],
    marks: &[u8],
    message: &[u8],
    out: &mut [u8],
    unmet: usize,
) -> Result<Answer, Refusal>
    requires { Kept table.now (take (64 * numbers.demanded) records.old) marks.now × (262208 ≤ length records.old) × (numbers.demanded ≤ 4096)
        × (68 ≤ length message.now) × (295008 ≤ length out.old) }
    ensures { DoneSteps numbers table.now records.old marks.now message.now out.old unmet (settled numbers result) records.new out.new }
{
    if (numbers.state == ACTIVE) & !(numbers.done == 1) {
        return Err(Refusal::OutOfTurn);
    }
    let d = numbers.demanded;
    if (numbers.state == PASSIVE) & !(unmet == 0) {
        records[FAR..FAR + 64].copy_from_slice(&message[4..68]);
        return Ok(form::numbers::changed(numbers, WAITING, numbers.done, d, 0, 0));
    }
    let tables = Tables {
        table,
        known: &records[..64 * d as usize],
    };
    let check = crate::checking::checksum(tables, marks);
    if message[4..68] != check[..] {
        return Err(Refusal::Checksum);
    }
    if numbers.state == PASSIVE {
        let sent = crate::sending::send_done(&check, out, 0);
        return Ok(form::numbers::changed(numbers, FINISHED, 1, d, sent, 0));
    }
    Ok(form::numbers::changed(numbers, FINISHED, numbers.done, d, 0, 0))
}
