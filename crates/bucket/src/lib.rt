// The arithmetic of a bucket: numbers as bytes, CRC-32, salting, places, strata, counter widths, packed counters, and one
// bucket of three lent columns. The lowest layer of Tandawire: it knows no table, no filter and no message.
// Every function answers every input; the definitions that the contracts cite stand in specs/.
#![tactic(auto)]

pub mod bytes;
pub mod columns;
pub mod counts;
pub mod crc;
pub mod packing;
pub mod places;
pub mod purity;
pub mod salting;

ghost use Rattle.std.specs.Prelude.{◌≡◌, min};

// The lesser of two numbers, for callers outside: the crates here call the library's own.
pub fn least(x: usize, y: usize) -> usize
    ensures { result ≡ min x y }
{
    x.min(y)
}
