// Marks, and where an element has its mark: a table's element i at i, a demanded hash j at 4,096 + j.
ghost use Rattle.std.specs.Prelude.{◌≡◌, MatchOption, true, false, ◌+◌, ◌*◌, ◌≤◌, ◌<◌, length, get_or};
ghost use Rattle.bucket.specs.Digits.{joined, groups};
ghost use Rattle.filter.specs.Table.{first_eight, hashes_of, ids_of, is_table, position, holds};
ghost use Rattle.session.specs.Moves.{place_of, is_held_at, hash_at_place, place_of_hash, unmet_at};
ghost use Rattle.session.specs.Ready.{IsPlace, Placed};

// Where the marks of the demanded hashes begin.
pub(crate) const RECORDS: usize = 4096;

// The hashes that a session knows: those of its table, and those demanded of the far end.
#[derive(Clone, Copy)]
pub(crate) struct Tables<'a> {
    pub(crate) table: &'a [u8],
    pub(crate) known: &'a [u8],
    ghost table_good: { is_table first_eight table.now ≡ true },
    ghost known_good: { is_table first_eight known.now ≡ true },
}

impl<'a> Tables<'a> {
    // The place of the element with an ID.
    pub(crate) fn place_of(self, id: u64) -> Option<usize>
        ensures { IsPlace result (place_of (ids_of first_eight self.entry.table.now) (ids_of first_eight self.entry.known.now) id) }
    {
        if let Some(p) = index_of(self.table, id) {
            return Some(p);
        }
        let q = index_of(self.known, id)?;
        Some(RECORDS + q)
    }

    // The hash at a place.
    pub(crate) fn hash_at(self, p: usize) -> &'a [u8]
        requires { Placed self.table.now self.known.now p }
        ensures { result.now ≡ groups 8 64 (hash_at_place (hashes_of self.entry.table.now) (hashes_of self.entry.known.now) p) }
    {
        if p < RECORDS {
            return nth_hash(self.table, p);
        }
        nth_hash(self.known, p - RECORDS)
    }

    // The place of a hash.
    pub(crate) fn place_of_hash(self, hash: &[u8]) -> Option<usize>
        requires { length hash.now ≡ 64 }
        ensures { IsPlace result (place_of_hash first_eight (hashes_of self.entry.table.now) (hashes_of self.entry.known.now) (joined 8 hash.now)) }
    {
        let p = self.place_of(bucket::bytes::number_at(hash, 0, 8))?;
        if self.hash_at(p) != hash {
            return None;
        }
        Some(p)
    }
}

// Which of ascending hashes has an ID.
pub(crate) fn index_of(hashes: &[u8], id: u64) -> Option<usize>
    ensures { MatchOption result (holds (ids_of first_eight hashes.now) id ≡ false)
        (λ i. (i ≡ position (ids_of first_eight hashes.now) id) × (holds (ids_of first_eight hashes.now) id ≡ true)) }
{
    let i = filter::table::id_position(hashes, id);
    if i < filter::table::count(hashes) && filter::table::element_id(hashes, i) == id {
        return Some(i);
    }
    None
}

// Hash i of a slice.
pub(crate) fn nth_hash<'a>(hashes: &'a [u8], i: usize) -> &'a [u8]
    requires { 64 * i + 64 ≤ length hashes.now }
    ensures { result.now ≡ groups 8 64 (get_or (hashes_of hashes.now) i 0) }
{
    &hashes[64 * i..64 * i + 64]
}

// Whether the element at a place is held: of the table, or demanded and met.
pub(crate) fn is_held(marks: &[u8], p: usize) -> bool
    requires { (p < 8192) × (8192 ≤ length marks.now) }
    ensures { result ≡ is_held_at marks.now p }
{
    p < RECORDS || form::marks::is_met(marks[p])
}

// The place of a demanded hash that is unmet.
pub(crate) fn unmet_place(tables: Tables, marks: &[u8], hash: &[u8]) -> Option<usize>
    requires { (8192 ≤ length marks.now) × (length hash.now ≡ 64) }
    ensures { IsPlace result (unmet_at marks.now (place_of_hash first_eight (hashes_of tables.entry.table.now) (hashes_of tables.entry.known.now) (joined 8 hash.now))) }
{
    let p = tables.place_of_hash(hash)?;
    if p < RECORDS || form::marks::is_met(marks[p]) {
        return None;
    }
    Some(p)
}
