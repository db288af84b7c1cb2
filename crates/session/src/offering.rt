// OFFER: the hashes of a message judged, the new ones gathered, and put among the demanded.
ghost use Rattle.std.specs.Prelude.{◌≡◌, IfOk, cond, ◌+◌, ◌*◌, ◌/◌, ◌≤◌, length};
ghost use Rattle.bucket.specs.Digits.{joined};
ghost use Rattle.filter.specs.Table.{first_eight, hashes_of};
ghost use Rattle.session.specs.Moves.{new_all, item_in, extra, stored, store_all};
ghost use Rattle.session.specs.Ready.{Offered};
ghost use Rattle.session.specs.declared.offering.Item.TheVariants.{Known, New, Bad};

use crate::places::Tables;
use filter::answers::Refusal;

// A hash offered.
#[derive(Drop)]
pub(crate) enum Item {
    // held, demanded or repeated: ignored
    Known,
    New,
    // its ID is another's, or was to be inquired and was not
    Bad,
}

// The hashes of an OFFER: the new ones are gathered in order, and `fresh` holds them ascending as they come. Answers how many.
pub(crate) fn new_all(
    tables: Tables,
    inquired: &[u64],
    active: bool,
    offered: &[u8],
    fresh: &mut [u8],
    hashes: &mut [u8],
) -> Result<usize, Refusal>
    requires { (length inquired.now ≤ 4096) × (length offered.now ≤ 65472) × (65472 ≤ length fresh.old) × (65472 ≤ length hashes.old) }
    ensures walked { Offered (new_all first_eight (hashes_of tables.entry.table.now) (hashes_of tables.entry.known.now) inquired.now active (hashes_of offered.now))
        result hashes.new hashes.old }
    ensures few { IfOk result (λ m. 64 * m ≤ length offered.now) }
{
    let mut m: usize = 0;
    for hash in offered.chunks_exact(64) {
        match judge_item(tables, &fresh[..64 * m], inquired, active, hash) {
            Item::Bad => return Err(Refusal::Breach),
            Item::New => {
                crate::inserting::insert_hash(fresh, m, hash);
                hashes[64 * m..64 * m + 64].copy_from_slice(hash);
                m += 1;
            }
            Item::Known => {}
        }
    }
    Ok(m)
}

// One hash offered, judged against the table, the demanded ones and the new ones so far.
fn judge_item(tables: Tables, fresh: &[u8], inquired: &[u64], active: bool, hash: &[u8]) -> Item
    requires { (length fresh.now ≤ 262144) × (length inquired.now ≤ 4096) × (length hash.now ≡ 64) }
    ensures { result ≡ item_in (hashes_of tables.entry.table.now) (hashes_of tables.entry.known.now) (hashes_of fresh.now) inquired.now active (joined 8 hash.now) }
{
    let id = bucket::bytes::number_at(hash, 0, 8);
    if let Some(p) = tables.place_of(id) {
        return known_if(tables.hash_at(p) == hash);
    }
    if let Some(i) = crate::places::index_of(fresh, id) {
        return known_if(crate::places::nth_hash(fresh, i) == hash);
    }
    if active && !crate::inserting::holds_id(inquired, id) {
        return Item::Bad;
    }
    Item::New
}

// By whether the hash that has its ID is the one offered.
fn known_if(same: bool) -> Item
    ensures { result ≡ cond same Known Bad }
{
    if same { Item::Known } else { Item::Bad }
}

// How many of the gathered hashes were not inquired. A `for`, since the proof of `filter(..).count()` over chunks didn't close: it knows them by index alone.
pub(crate) fn count_extra(hashes: &[u8], inquired: &[u64]) -> usize
    requires { length inquired.now ≤ 4096 }
    ensures { (result ≡ extra first_eight inquired.now (hashes_of hashes.now)) × (result ≤ length hashes.now / 64) }
{
    let mut n: usize = 0;
    for hash in hashes.chunks_exact(64) {
        if !crate::inserting::holds_id(inquired, bucket::bytes::number_at(hash, 0, 8)) {
            n += 1;
        }
    }
    n
}

// The gathered hashes put among the n demanded ones, with a mark each.
pub(crate) fn store_all(records: &mut [u8], marks: &mut [u8], mut n: usize, hashes: &[u8])
    requires { (262144 ≤ length records.old) × (8192 ≤ length marks.old) × (64 * n + length hashes.now ≤ 262144) }
    ensures { stored records.new marks.new ≡ store_all n (hashes_of hashes.now) (stored records.old marks.old) }
{
    for hash in hashes.chunks_exact(64) {
        let p = crate::inserting::insert_hash(records, n, hash);
        crate::inserting::insert_mark(marks, n, p);
        n += 1;
    }
}
