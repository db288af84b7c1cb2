// Chains of calls, for the benchmark.
ghost use Rattle.std.specs.Prelude.{◌≡◌, ◌+◌, ◌%◌, ◌^◌, bit_xor};
ghost use Rattle.bucket.specs.Places.{draw, crc_next};
ghost use Rattle.probe.specs.Chains.{mixed, strided};

// n CRCs, a bit at a time.
#[unsafe(no_mangle)]
pub extern "C" fn tandawire_bench_crc(n: u32) -> u32
    ensures { result ≡ draw crc_next 1 n }
{
    let mut d: u32 = 1;
    let mut i: u32 = 0;
    while i < n {
        d = bucket::crc::crc((d as u64) * 0x1_0000_0000 + (i as u64));
        i += 1;
    }
    d
}

// n CRCs by tables made once.
#[unsafe(no_mangle)]
pub extern "C" fn tandawire_bench_crc_by_tables(n: u32) -> u32
    ensures { result ≡ draw crc_next 1 n }
{
    let tab = bucket::crc::tables();
    let mut d: u32 = 1;
    let mut i: u32 = 0;
    while i < n {
        d = bucket::crc::crc_by(&tab, (d as u64) * 0x1_0000_0000 + (i as u64));
        i += 1;
    }
    d
}

// The places of n elements.
#[unsafe(no_mangle)]
pub extern "C" fn tandawire_bench_places(n: u32, size: u32, k: usize) -> u32
    ensures { result ≡ draw (strided size k) 1 n }
{
    let tab = bucket::crc::tables();
    let mut d: u32 = 1;
    let mut i: u32 = 0;
    while i < n {
        let p = bucket::places::places(&tab, d, size, k);
        d = stride(d, p);
        i += 1;
    }
    d
}

fn stride(d: u32, p: [u32; 4]) -> u32
    ensures { result ≡ bit_xor ((d + 0x9E3779B9) % 2 ^ 32) (mixed p) }
{
    std::num::wrapping_add_u32(d, 0x9E37_79B9) ^ ((p[0] ^ p[1]) ^ (p[2] ^ p[3]))
}
