// The checksum: the XOR of all hashes held.
ghost use Rattle.std.specs.Prelude.{◌≡◌, ◌+◌, ◌≤◌, length};
ghost use mathlib.Core.List.{[], ◌∷◌, foldr};
ghost use Rattle.std.specs.Int.Bits.{bit_xor};
ghost use Rattle.bucket.specs.Digits.{joined, packed};
ghost use Rattle.bucket.specs.Lists.{part};
ghost use Rattle.filter.specs.Table.{hashes_of};
ghost use Rattle.ledger.specs.Memory.{is_met, marked};
ghost use Rattle.session.specs.Moves.{check_of};
ghost use Rattle.session.specs.Ready.{Adds};

use crate::places::{RECORDS, Tables};

// The checksum of the table and of the hashes demanded and met.
pub(crate) fn checksum(tables: Tables, marks: &[u8]) -> [u8; 64]
    requires { 8192 ≤ length marks.now }
    ensures { result ≡ packed 512 (check_of (hashes_of tables.entry.table.now) (hashes_of tables.entry.known.now) (part 4096 (length (hashes_of tables.entry.known.now)) marks.now) ∷ []) }
{
    let mut acc = [0u8; 64];
    xor_all(&mut acc, tables.table);
    xor_met(&mut acc, tables.known, &marks[RECORDS..]);
    acc
}

// All hashes of a slice.
fn xor_all(acc: &mut [u8; 64], s: &[u8])
    ensures { Adds acc.old (foldr bit_xor 0 (hashes_of s.now)) acc.new }
{
    for hash in s.chunks_exact(64) {
        xor_into(acc, hash);
    }
}

// Those that are met, each by its mark.
fn xor_met(acc: &mut [u8; 64], known: &[u8], marks: &[u8])
    ensures { Adds acc.old (foldr bit_xor 0 (marked is_met (hashes_of known.now) marks.now)) acc.new }
{
    for (hash, mark) in known.chunks_exact(64).zip(marks) {
        if form::marks::is_met(*mark) {
            xor_into(acc, hash);
        }
    }
}

// One hash.
pub(crate) fn xor_into(acc: &mut [u8; 64], hash: &[u8])
    requires { length hash.now ≡ 64 }
    ensures { Adds acc.old (joined 8 hash.now) acc.new }
{
    // By index, since a proof knows of a slice behind `iter_mut().zip(..)` its length alone.
    for (k, b) in hash.iter().enumerate() {
        acc[k] ^= *b;
    }
}
