// INQUIRY, OFFER and DEMAND: each is asked once the grid has admitted it, judges its whole message first, and then writes.
ghost use Rattle.std.specs.Prelude.{◌≡◌, ◌+◌, ◌*◌, ◌≤◌, ◌<◌, length, take};
ghost use Rattle.bucket.specs.Digits.{unpacked};
ghost use Rattle.bucket.specs.Lists.{part};
ghost use Rattle.filter.specs.Table.{hashes_of};
ghost use Rattle.session.specs.Moves.{stored};
ghost use Rattle.session.specs.Ready.{Kept};
ghost use Rattle.session.specs.Turns.{settled, mark_turn, inquiry_turn, demand_turn, offer_turn, offer_turn'};

use crate::places::Tables;
use filter::answers::Refusal;
use ledger::numbers::{ACTIVE, Answer, Numbers};

pub(crate) fn on_inquiry(
    numbers: Numbers,
    table: &[u8],
    records: &[u8],
    marks: &mut [u8],
    message: &[u8],
    out: &mut [u8],
    salt: u32,
    n: usize,
) -> Result<Answer, Refusal>
    requires { Kept table.now (take (64 * numbers.demanded) records.now) marks.old × (64 * numbers.demanded ≤ length records.now) × (numbers.demanded ≤ 4096)
        × (8 + 8 * n ≤ length message.now) × (295008 ≤ length out.old) }
    ensures { mark_turn (settled numbers result) marks.new out.new
        ≡ inquiry_turn numbers (hashes_of table.now) (hashes_of (take (64 * numbers.demanded) records.now)) salt (unpacked 64 n (part 8 (8 * n) message.now)) marks.old out.old }
{
    if salt != numbers.salt {
        return Err(Refusal::Breach);
    }
    let tables = Tables {
        table,
        known: &records[..64 * numbers.demanded as usize],
    };
    let mut work = [0u8; 8192];
    work.copy_from_slice(&marks[..8192]);
    let mut hashes = [0u8; 262144];
    let ids = &message[8..8 + 8 * n];
    let m = crate::asking::ask_all(tables, &mut work, ids, &mut hashes)?;
    marks[..8192].copy_from_slice(&work);
    let sent = crate::sending::send_offers(&hashes[..64 * m], out, 0);
    Ok(form::numbers::changed(
        numbers,
        numbers.state,
        numbers.done,
        numbers.demanded,
        sent,
        0,
    ))
}

pub(crate) fn on_demand(
    numbers: Numbers,
    table: &[u8],
    records: &[u8],
    marks: &mut [u8],
    message: &[u8],
    out: &mut [u8],
    n: usize,
) -> Result<Answer, Refusal>
    requires { Kept table.now (take (64 * numbers.demanded) records.now) marks.old × (64 * numbers.demanded ≤ length records.now) × (numbers.demanded ≤ 4096)
        × (4 + 64 * n ≤ length message.now) × (n ≤ 1023) × (295008 ≤ length out.old) }
    ensures { mark_turn (settled numbers result) marks.new out.new
        ≡ demand_turn numbers (hashes_of table.now) (hashes_of (take (64 * numbers.demanded) records.now)) (unpacked 512 n (part 4 (64 * n) message.now)) marks.old out.old }
{
    let tables = Tables {
        table,
        known: &records[..64 * numbers.demanded as usize],
    };
    let mut work = [0u8; 8192];
    work.copy_from_slice(&marks[..8192]);
    let hashes = &message[4..4 + 64 * n];
    crate::asking::serve_all(tables, &mut work, hashes)?;
    marks[..8192].copy_from_slice(&work);
    out[..64 * n].copy_from_slice(hashes);
    Ok(form::numbers::changed(numbers, numbers.state, numbers.done, numbers.demanded, 0, n))
}

pub(crate) fn on_offer(
    numbers: Numbers,
    table: &[u8],
    records: &mut [u8],
    marks: &mut [u8],
    inquired: &[u64],
    message: &[u8],
    out: &mut [u8],
    n: usize,
    concerned: usize,
) -> Result<Answer, Refusal>
    requires { Kept table.now (take (64 * numbers.demanded) records.old) marks.old × (262144 ≤ length records.old) × (numbers.demanded ≤ 4096)
        × (numbers.inquired ≤ length inquired.now) × (numbers.inquired ≤ 4096) × (concerned ≤ 4096)
        × (4 + 64 * n ≤ length message.now) × (n ≤ 1023) × (295008 ≤ length out.old) }
    ensures { offer_turn' (settled numbers result) (stored records.new marks.new) out.new
        ≡ offer_turn numbers (hashes_of table.now) (hashes_of (take (64 * numbers.demanded) records.old)) (take numbers.inquired inquired.now) (unpacked 512 n (part 4 (64 * n) message.now)) concerned records.old marks.old out.old }
{
    let demanded = numbers.demanded as usize;
    let tables = Tables {
        table,
        known: &records[..64 * demanded],
    };
    let inquired = &inquired[..numbers.inquired as usize];
    let active = numbers.state == ACTIVE;
    let offered = &message[4..4 + 64 * n];
    let mut fresh = [0u8; 65472];
    let mut hashes = [0u8; 65472];
    let m = crate::offering::new_all(tables, inquired, active, offered, &mut fresh, &mut hashes)?;
    let new = &hashes[..64 * m];
    let more = crate::offering::count_extra(new, inquired);
    if 4096 < concerned + more || 4096 < demanded + m {
        return Err(Refusal::Limit);
    }
    crate::offering::store_all(records, marks, demanded, new);
    let sent = crate::sending::send_demands(new, out, 0);
    let now = (demanded + m) as u32;
    Ok(form::numbers::changed(numbers, numbers.state, numbers.done, now, sent, 0))
}
