// CRC-32 of IEEE 802.3: of bytes, of a number as eight bytes, and of a number by tables that are made once and lent.
ghost use Rattle.std.specs.Prelude.{◌≡◌, ℕ, ◌+◌, ◌≤◌};
ghost use Rattle.bucket.specs.Crc.{step, steps, crc32, crc_of, crc_tables, looked_up, crc_by, next_by};

// What the eight zero bytes of the number 0 give: every table lookup starts from it.
const OF_ZERO: u32 = 0x6522_DF69;

pub fn crc_bytes(s: &[u8]) -> u32
    ensures { result ≡ crc32 s.now }
{
    let c = s.iter().fold(0xFFFF_FFFF, |c, b| octet(c ^ u32::from(*b)));
    c ^ 0xFFFF_FFFF
}

pub fn crc(x: u64) -> u32
    ensures { result ≡ crc_of x }
{
    crc_bytes(&x.to_be_bytes())
}

// The eight tables, row k for a byte with k bytes behind it: to be made once a call and lent down.
pub fn tables() -> [u32; 2048]
    ensures { result ≡ crc_tables }
{
    let mut tab = [0u32; 2048];
    for i in 0..2048 {
        let v = if i < 256 { i as u32 } else { tab[i - 256] };
        tab[i] = octet(v);
    }
    tab
}

// The CRC-32 of x, if the tables are those of `tables`.
pub fn crc_by(tab: &[u32; 2048], x: u64) -> u32
    ensures { result ≡ crc_by tab.now x }
{
    looked_up(tab, 0, 8, x, OF_ZERO)
}

// The draw after d, which was draw i: with the tables of `tables` and i below 256, the CRC-32 of d × 2^32 + i.
// The bytes between d and i are zero and their entries too, so five lookups do for eight.
pub fn next_draw(tab: &[u32; 2048], d: u32, i: u32) -> u32
    ensures { result ≡ next_by tab.now d i }
{
    let c = looked_up(tab, 4, 4, d as u64, OF_ZERO);
    looked_up(tab, 0, 1, i as u64, c)
}

// The n low bytes of x, looked up from a row on.
fn looked_up(tab: &[u32; 2048], row: usize, n: usize, x: u64, start: u32) -> u32
    requires { row + n ≤ 8 }
    ensures { result ≡ looked_up tab.now row x n start }
{
    let mut c = start;
    for k in (0..n).rev() {
        let b = ((x >> (8 * k)) % 256) as usize;
        c = c ^ tab[(row + k) * 256 + b];
    }
    c
}

// A branching `if` under an up-counting `for`: the compiler makes a table of this shape.
fn octet(c: u32) -> u32
    ensures { result ≡ steps 8 c }
{
    let mut v = c;
    for k in 0usize..8 {
        v = bit(v);
    }
    v
}

fn bit(c: u32) -> u32
    ensures { result ≡ step c }
{
    if c % 2 == 0 {
        c >> 1
    } else {
        (c >> 1) ^ 0xEDB8_8320
    }
}
