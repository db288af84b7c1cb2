// Packed counters.
ghost use Rattle.std.specs.Prelude.{◌≡◌, ◌&&◌};
ghost use Rattle.bucket.specs.Packing.{fits_in, is_width, pack_into, pack_end, counter_at, is_bare, unpacks, unpack_into};

#[unsafe(no_mangle)]
pub extern "C" fn tandawire_fits(counts: &[i64], w: u32) -> bool
    ensures { result ≡ is_width w && fits_in w counts.now }
{
    bucket::packing::fits(counts, w)
}

#[unsafe(no_mangle)]
pub extern "C" fn tandawire_pack(counts: &[i64], w: u32, out: &mut [u8], at: usize) -> usize
    ensures { (result ≡ pack_end w counts.now at out.old)
        × (out.new ≡ pack_into w counts.now at out.old) }
{
    bucket::packing::pack(counts, w, out, at)
}

#[unsafe(no_mangle)]
pub extern "C" fn tandawire_counter_at(s: &[u8], at: usize, n: usize, w: u32, i: usize) -> u32
    ensures { result ≡ counter_at w n at s.now i }
{
    bucket::packing::counter_at(s, at, n, w, i)
}

#[unsafe(no_mangle)]
pub extern "C" fn tandawire_spare_is_zero(s: &[u8], at: usize, n: usize, w: u32) -> bool
    ensures { result ≡ is_bare w n at s.now }
{
    bucket::packing::spare_is_zero(s, at, n, w)
}

#[unsafe(no_mangle)]
pub extern "C" fn tandawire_unpack(
    s: &[u8],
    at: usize,
    n: usize,
    w: u32,
    counts: &mut [i64],
    from: usize,
) -> bool
    ensures { (result ≡ unpacks w n at s.now from counts.old)
        × (counts.new ≡ unpack_into w n at s.now from counts.old) }
{
    bucket::packing::unpack(s, at, n, w, counts, from)
}
