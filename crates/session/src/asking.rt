// INQUIRY and DEMAND: every item of a message judged and marked, on a copy of the marks.
ghost use Rattle.std.specs.Prelude.{◌≡◌, ◌/◌, ◌%◌, ◌≤◌, length};
ghost use Rattle.bucket.specs.Digits.{unpacked};
ghost use Rattle.filter.specs.Table.{first_eight, hashes_of};
ghost use Rattle.session.specs.Moves.{ask_all, serve_all};
ghost use Rattle.session.specs.Ready.{Served, Walked};

use crate::places::Tables;
use filter::answers::Refusal;

// The IDs of an INQUIRY: those held are marked asked and offered, and their hashes gathered in order. Answers how many.
pub(crate) fn ask_all(
    tables: Tables,
    marks: &mut [u8],
    ids: &[u8],
    hashes: &mut [u8],
) -> Result<usize, Refusal>
    requires { (8192 ≤ length marks.old) × (length ids.now % 8 ≡ 0) × (262144 ≤ length hashes.old) }
    ensures { Walked (ask_all first_eight (hashes_of tables.entry.table.now) (hashes_of tables.entry.known.now) (unpacked 64 (length ids.now / 8) ids.now) marks.old)
        result marks.new hashes.new hashes.old }
{
    let mut m: usize = 0;
    for id in ids.chunks_exact(8) {
        let Some(p) = tables.place_of(bucket::bytes::number_at(id, 0, 8)) else {
            continue;
        };
        if !crate::places::is_held(marks, p) {
            continue;
        }
        if form::marks::is_asked(marks[p]) || 4096 <= m {
            return Err(Refusal::Breach);
        }
        marks[p] = marks[p] / 4 * 4 + 3;
        hashes[64 * m..64 * m + 64].copy_from_slice(tables.hash_at(p));
        m += 1;
    }
    Ok(m)
}

// The hashes of a DEMAND: each must be offered and not served, and is marked served.
pub(crate) fn serve_all(tables: Tables, marks: &mut [u8], hashes: &[u8]) -> Result<(), Refusal>
    requires { 8192 ≤ length marks.old }
    ensures { Served (serve_all first_eight (hashes_of tables.entry.table.now) (hashes_of tables.entry.known.now) (hashes_of hashes.now) marks.old) result marks.new }
{
    for hash in hashes.chunks_exact(64) {
        let Some(p) = tables.place_of_hash(hash) else {
            return Err(Refusal::Breach);
        };
        let m = marks[p];
        if !form::marks::is_offered(m) || form::marks::is_served(m) {
            return Err(Refusal::Breach);
        }
        marks[p] = m + 4;
    }
    Ok(())
}
