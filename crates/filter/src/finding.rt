// Finding many IDs in one table. How an ID begins gives a guess where to look; what is found there is checked, so any guess would do.
ghost use Rattle.std.specs.Prelude.{◌≡◌, ◌≤◌, ◌<◌};
ghost use Rattle.bucket.specs.Lists.{elem};
ghost use Rattle.filter.specs.Table.{first_eight, ids_of};

use crate::table::Table;

// For each way that an ID can begin, where to look from.
pub(crate) type Hints = [u16; 4096];

// Of each beginning the last place in the table whose ID begins with less, or 0. The hints come as zeros.
pub(crate) fn fill(table: Table<'_>, hints: &mut Hints) {
    for e in 0..table.count() {
        hints[beginning(table.element_id(e))] = e as u16;
    }
    move_up(hints);
}

// From the last place of each beginning to the last place of those below it. Place 0 stands for none, and moving it would change nothing.
fn move_up(lasts: &mut Hints) {
    let mut below = 0;
    for last in lasts.iter_mut() {
        let own = std::mem::replace(last, below);
        if own != 0 {
            below = own;
        }
    }
}

// The first 12 bits: as many beginnings as a table can have IDs, so that few IDs share one.
fn beginning(id: u64) -> usize
    ensures { result < 4096 }
{
    (id >> 52) as usize
}

// Whether an ID is in the table. Two neighbours that it lies between decide; where no hint leads to them, a binary search does.
// A part of both loops over IDs: a call for each would cost them a tenth.
#[inline(always)]
pub(crate) fn is_held(table: Table<'_>, hints: Option<&Hints>, id: u64) -> bool
    ensures { result ≡ elem id (ids_of first_eight table.entry.bytes.now) }
{
    if let Some(hints) = hints {
        let p = place_before(table, id, hints[beginning(id)]);
        if table.element_id(p) < id {
            let next = table.element_id(p + 1);
            if id <= next {
                return next == id;
            }
        }
    }
    table.holds_id(id)
}

// From a place on, the first whose next ID is not below the one sought. At most four steps, so that no table makes this slow: in a table of
// hashes more than four IDs seldom share a beginning.
fn place_before(table: Table<'_>, id: u64, from: u16) -> usize
    ensures { result ≤ 65539 }
{
    let from = usize::from(from);
    (from..from + 4)
        .find(|p| id <= table.element_id(*p + 1))
        .unwrap_or(from + 4)
}
