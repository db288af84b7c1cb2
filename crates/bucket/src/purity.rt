// Whether a bucket looks pure: whether it seems to hold one element alone.
ghost use Rattle.std.specs.Prelude.{◌≡◌, min};
ghost use Rattle.bucket.specs.Lists.{elem};
ghost use Rattle.bucket.specs.Crc.{crc_by, next_by};
ghost use Rattle.bucket.specs.Places.{places_by};
ghost use Rattle.bucket.specs.Bucket.{bucket, is_one, looks_pure_by};

use crate::crc::crc_by;
use crate::places::places;

// Whether bucket i of a filter of a size, with k places an element (at most four), looks pure:
// its count is 1 or −1, its HASHSUM is the CRC-32 of its IDSUM, and it is one of the places of that IDSUM.
#[tactic(auto, using(crate::proofs::PurityLaws::as_passed), unfolding(crate::specs::Bucket::looks_pure_by))]
pub fn looks_pure(
    tab: &[u32; 2048],
    idsum: u64,
    hashsum: u32,
    count: i64,
    i: u32,
    size: u32,
    k: usize,
) -> bool
    ensures { result ≡ looks_pure_by (crc_by tab.now) (next_by tab.now) (min 4 k) size i (bucket idsum hashsum count) }
{
    is_one(count) && crc_by(tab, idsum) == hashsum && is_place(tab, hashsum, i, size, k)
}

// Whether a count is 1 or −1. A caller that asks this first spares most buckets the call of looks_pure.
pub fn is_one(c: i64) -> bool
    ensures { result ≡ is_one c }
{
    c == 1 || c == -1
}

// Whether bucket i is one of the places that draw 0 leads to. Draw 0 leads to one in any case, which spares a search where it is i.
pub fn is_place(tab: &[u32; 2048], d: u32, i: u32, size: u32, k: usize) -> bool
    ensures { result ≡ elem i (places_by (next_by tab.now) (min 4 k) size d) }
{
    let n = k.min(4).min(size as usize);
    n > 0 && (d % size == i || places(tab, d, size, k)[..n].iter().any(|p| *p == i))
}
