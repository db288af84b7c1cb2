// A table: bytes of 64-byte hashes, ascending, no two sharing an ID. Its form, and searches in it.
ghost use Rattle.std.specs.Prelude.{◌≡◌, true, ◌&&◌, ◌*◌, ◌/◌, ◌≤◌, ◌<◌, ltb, leb, length, get_or};
ghost use Rattle.bucket.specs.Lists.{part, elem};
ghost use Rattle.filter.specs.Lists.{ascending};
ghost use Rattle.filter.specs.Table.{hashes_of, first_eight, ids_of, is_table, position, holds};

use crate::searching::bisect;

// The most hashes of a table (document 01).
const MOST_HASHES: usize = 4096;

// Bytes that are a table, for functions that take nothing else.
#[derive(Clone, Copy)]
pub(crate) struct Table<'a> {
    pub(crate) bytes: &'a [u8],
    ghost well_formed: { is_table first_eight bytes.now ≡ true },
}

impl<'a> Table<'a> {
    pub(crate) fn count(self) -> usize
        ensures { (result ≡ length (ids_of first_eight self.entry.bytes.now)) × (result ≤ 4096) }
    {
        count(self.bytes)
    }

    pub(crate) fn element_id(self, i: usize) -> u64
        ensures { result ≡ get_or (ids_of first_eight self.entry.bytes.now) i 0 }
    {
        element_id(self.bytes, i)
    }

    pub(crate) fn holds_id(self, id: u64) -> bool
        ensures { result ≡ elem id (ids_of first_eight self.entry.bytes.now) }
    {
        holds_id(self.bytes, id)
    }
}

// How many whole hashes the bytes hold.
pub fn count(table: &[u8]) -> usize
    ensures { result ≡ length (hashes_of table.now) }
{
    table.len() / 64
}

// The ID of hash i: its first eight bytes, most significant first. 0 where there is no hash i.
// The one place where an ID is taken out of a hash.
pub fn element_id(table: &[u8], i: usize) -> u64
    ensures { result ≡ get_or (ids_of first_eight table.now) i 0 }
{
    if count(table) <= i {
        return 0;
    }
    u64::from_be_bytes(*bytes_of(table, i).first_chunk().unwrap())
}

// Whether the bytes are a table: whole hashes, at most 4,096, strictly ascending, no two sharing an ID.
// Ascending IDs say the last two at once.
pub fn is_table(table: &[u8]) -> bool
    ensures { result ≡ is_table first_eight table.now }
{
    table.len() % 64 == 0 && count(table) <= MOST_HASHES && ids_ascend(table)
}

// Where a binary search for an ID ends: in a table, the first hash whose ID is not below it.
pub fn id_position(table: &[u8], id: u64) -> usize
    ensures { result ≡ position (ids_of first_eight table.now) id }
{
    bisect(count(table), |i| element_id(table, i) < id)
}

// Whether a binary search finds an ID: in a table, whether it is there.
pub fn holds_id(table: &[u8], id: u64) -> bool
    ensures { result ≡ holds (ids_of first_eight table.now) id }
{
    let at = id_position(table, id);
    at < count(table) && element_id(table, at) == id
}

// Where a binary search for a hash, the first of the given bytes, ends: in a table, the first hash that is not below it.
// Where there are not 64 bytes, the hash 0 is looked for.
pub fn hash_position(table: &[u8], hash: &[u8]) -> usize
    ensures { result ≡ position (hashes_of table.now) (get_or (hashes_of hash.now) 0 0) }
{
    if hash.len() < 64 {
        return 0;
    }
    bisect(count(table), |i| is_below(table, i, hash))
}

// Whether a binary search finds a hash, the first of the given bytes: in a table, whether it is there.
pub fn holds_hash(table: &[u8], hash: &[u8]) -> bool
    ensures { result ≡ (leb 64 (length hash.now) && holds (hashes_of table.now) (get_or (hashes_of hash.now) 0 0)) }
{
    if hash.len() < 64 {
        return false;
    }
    let at = hash_position(table, hash);
    at < count(table) && bytes_of(table, at) == bytes_of(hash, 0)
}

// The IDs, from the second on, are each above the one before.
fn ids_ascend(table: &[u8]) -> bool
    ensures { result ≡ ascending (ids_of first_eight table.now) }
{
    let mut last = element_id(table, 0);
    for e in 1..count(table) {
        let id = element_id(table, e);
        if id <= last {
            return false;
        }
        last = id;
    }
    true
}

// Whether hash i of a table is below the first of the given bytes.
fn is_below(table: &[u8], i: usize, hash: &[u8]) -> bool
    requires { (i < length (hashes_of table.now)) × (64 ≤ length hash.now) }
    ensures { result ≡ ltb (get_or (hashes_of table.now) i 0) (get_or (hashes_of hash.now) 0 0) }
{
    let ours = bytes_of(table, i);
    let theirs = bytes_of(hash, 0);
    // By index: a search by `<` of slices takes more than half as much time again.
    for k in 0..64 {
        if ours[k] != theirs[k] {
            return ours[k] < theirs[k];
        }
    }
    false
}

// The 64 bytes of hash i.
fn bytes_of(table: &[u8], i: usize) -> &[u8]
    requires { i < length table.now / 64 }
    ensures { result.now ≡ part (i * 64) 64 table.now }
{
    &table[i * 64..i * 64 + 64]
}
