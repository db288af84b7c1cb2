// CRC-32, salting, strata, widths and numbers as bytes.
ghost use Rattle.std.specs.Prelude.{◌≡◌, min};
ghost use Rattle.bucket.specs.Crc.{crc32, crc_of};
ghost use Rattle.bucket.specs.Salt.{salted, unsalted};
ghost use Rattle.bucket.specs.Counts.{stratum_of, width_of};
ghost use Rattle.bucket.specs.Digits.{joined, put_into};
ghost use Rattle.bucket.specs.Lists.{part};

#[unsafe(no_mangle)]
pub extern "C" fn tandawire_crc_bytes(s: &[u8]) -> u32
    ensures { result ≡ crc32 s.now }
{
    bucket::crc::crc_bytes(s)
}

#[unsafe(no_mangle)]
pub extern "C" fn tandawire_crc(x: u64) -> u32
    ensures { result ≡ crc_of x }
{
    bucket::crc::crc(x)
}

#[unsafe(no_mangle)]
pub extern "C" fn tandawire_crc_by_tables(x: u64) -> u32
    ensures { result ≡ crc_of x }
{
    let tab = bucket::crc::tables();
    bucket::crc::crc_by(&tab, x)
}

#[unsafe(no_mangle)]
pub extern "C" fn tandawire_salt(x: u64, t: u32) -> u64
    ensures { result ≡ salted t x }
{
    bucket::salting::salt(x, t)
}

#[unsafe(no_mangle)]
pub extern "C" fn tandawire_unsalt(x: u64, t: u32) -> u64
    ensures { result ≡ unsalted t x }
{
    bucket::salting::unsalt(x, t)
}

#[unsafe(no_mangle)]
pub extern "C" fn tandawire_stratum(x: u64) -> u32
    ensures { result ≡ stratum_of x }
{
    bucket::counts::stratum(x)
}

#[unsafe(no_mangle)]
pub extern "C" fn tandawire_width(n: u32) -> u32
    ensures { result ≡ width_of n }
{
    bucket::counts::width(n)
}

#[unsafe(no_mangle)]
pub extern "C" fn tandawire_number_at(s: &[u8], at: usize, k: usize) -> u64
    ensures { result ≡ joined 8 (part at (min 8 k) s.now) }
{
    bucket::bytes::number_at(s, at, k)
}

#[unsafe(no_mangle)]
pub extern "C" fn tandawire_put_number(s: &mut [u8], at: usize, k: usize, x: u64)
    ensures { s.new ≡ put_into at k x s.old }
{
    bucket::bytes::put_number(s, at, k, x);
}
