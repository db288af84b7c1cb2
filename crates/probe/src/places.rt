// Places and purity.
ghost use Rattle.std.specs.Prelude.{◌≡◌, min, length, if◌then◌else◌, nat_le};
ghost use Rattle.bucket.specs.Lists.{over, pad};
ghost use Rattle.bucket.specs.Places.{places, place_count};
ghost use Rattle.bucket.specs.Bucket.{bucket, looks_pure};

#[unsafe(no_mangle)]
pub extern "C" fn tandawire_place_count(size: u32) -> usize
    ensures { result ≡ place_count size }
{
    bucket::places::place_count(size)
}

// The places that draw 0 leads to, at the start of out; nothing is written where out has no room for four.
#[unsafe(no_mangle)]
pub extern "C" fn tandawire_places(d: u32, size: u32, k: usize, out: &mut [u32])
    ensures { out.new ≡ (if nat_le 4 (length out.old) then over 0 (pad 4 (places (min 4 k) size d)) out.old else out.old) }
{
    if out.len() < 4 {
        return;
    }
    let tab = bucket::crc::tables();
    let p = bucket::places::places(&tab, d, size, k);
    out[0] = p[0];
    out[1] = p[1];
    out[2] = p[2];
    out[3] = p[3];
}

#[unsafe(no_mangle)]
pub extern "C" fn tandawire_looks_pure(
    idsum: u64,
    hashsum: u32,
    count: i64,
    i: u32,
    size: u32,
    k: usize,
) -> bool
    ensures { result ≡ looks_pure (min 4 k) size i (bucket idsum hashsum count) }
{
    let tab = bucket::crc::tables();
    bucket::purity::looks_pure(&tab, idsum, hashsum, count, i, size, k)
}
