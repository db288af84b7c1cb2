// Tables: their form, IDs, and searches in them.
ghost use Rattle.std.specs.Prelude.{◌≡◌, ◌&&◌, length, nat_le, slice_index};
ghost use Rattle.filter.specs.Table.{hashes_of, first_eight, ids_of, is_table, position, holds};

#[unsafe(no_mangle)]
pub extern "C" fn tandawire_is_table(table: &[u8]) -> bool
    ensures { result ≡ is_table first_eight table.now }
{
    filter::table::is_table(table)
}

#[unsafe(no_mangle)]
pub extern "C" fn tandawire_element_id(table: &[u8], i: usize) -> u64
    ensures { result ≡ slice_index (ids_of first_eight table.now) i }
{
    filter::table::element_id(table, i)
}

#[unsafe(no_mangle)]
pub extern "C" fn tandawire_id_position(table: &[u8], id: u64) -> usize
    ensures { result ≡ position (ids_of first_eight table.now) id }
{
    filter::table::id_position(table, id)
}

#[unsafe(no_mangle)]
pub extern "C" fn tandawire_holds_id(table: &[u8], id: u64) -> bool
    ensures { result ≡ holds (ids_of first_eight table.now) id }
{
    filter::table::holds_id(table, id)
}

#[unsafe(no_mangle)]
pub extern "C" fn tandawire_hash_position(table: &[u8], hash: &[u8]) -> usize
    ensures { result ≡ position (hashes_of table.now) (slice_index (hashes_of hash.now) 0) }
{
    filter::table::hash_position(table, hash)
}

#[unsafe(no_mangle)]
pub extern "C" fn tandawire_holds_hash(table: &[u8], hash: &[u8]) -> bool
    ensures { result ≡ (nat_le 64 (length hash.now)
        && holds (hashes_of table.now) (slice_index (hashes_of hash.now) 0)) }
{
    filter::table::holds_hash(table, hash)
}
