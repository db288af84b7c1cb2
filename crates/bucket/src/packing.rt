// Counters of a width w of 1 to 32 bits in bytes (document 02, Req 03): packed bit j is bit j mod w, both counted from the
// highest from 0, of counter j / w rounded down; spare bits are zero. So 5, 0, 7 at width 3 are the bytes A3 80:
//
//     counter j / w        5      0      7
//     its bit j mod w    0 1 2  0 1 2  0 1 2
//     packed bit j       0 1 2  3 4 5  6 7|8  spare
//                        1 0 1  0 0 0  1 1|1  0 0 0 0 0 0 0
//
// They are written and read one bit at a time: `pack_bits` sets each at its place, `counter` reads each at its place.
ghost use Rattle.std.specs.Prelude.{◌≡◌, ◌&&◌, true, false, map, ◌*◌, ◌/◌, ◌%◌, ◌^◌, ◌-◌, ◌≤◌, ◌<◌, pos, length, get_or, MatchOption};
ghost use Rattle.bucket.specs.Digits.{bytes_for, packed, unpacked, bit_at};
ghost use Rattle.bucket.specs.Lists.{part};
ghost use Rattle.bucket.specs.Packing.{number, numbers, has_bits, fits_in, is_width, takes, Packed, pack_into, pack_end, counter_at, is_bare, unpacks, unpack_into};

// Whether each count is a number of w bits, for a width of 1 to 32.
pub fn fits(counts: &[i64], w: u32) -> bool
    ensures { result ≡ is_width w && fits_in w counts.now }
{
    is_width(w) && counts.iter().all(|c| has_bits(*c, w))
}

// The counts packed at width w from a position on; answers the position behind them. Nothing is written, and the position
// is the same, where the width is not 1 to 32, a count does not fit it, they are more than 65,536, or the bytes do not fit.
#[tactic(auto, unfolding(crate::specs::Packing::pack_into, crate::specs::Packing::pack_end))]
pub fn pack(counts: &[i64], w: u32, out: &mut [u8], at: usize) -> usize
    ensures { (result ≡ pack_end w counts.now at out.old)
        × (out.new ≡ pack_into w counts.now at out.old) }
{
    if !takes_room(w, counts.len(), at, out.len()) || !fits(counts, w) {
        return at;
    }
    let end = at + bytes_for(w, counts.len());
    pack_bits(counts, w, &mut out[at..end]);
    end
}

// Counter i of n that stand packed at width w from a position on; 0 where n such counters do not, or i is past them.
#[tactic(auto, unfolding(crate::specs::Packing::counter_at))]
pub fn counter_at(s: &[u8], at: usize, n: usize, w: u32, i: usize) -> u32
    ensures { result ≡ counter_at w n at s.now i }
{
    let Some(bytes) = packed_at(s, at, n, w) else {
        return 0;
    };
    if i < n { counter(bytes, n, w, i) } else { 0 }
}

// Whether n counters stand packed at width w from a position on, with zeros in the spare bits behind them.
#[tactic(auto, unfolding(crate::specs::Packing::is_bare))]
pub fn spare_is_zero(s: &[u8], at: usize, n: usize, w: u32) -> bool
    ensures { result ≡ is_bare w n at s.now }
{
    let Some(bytes) = packed_at(s, at, n, w) else {
        return false;
    };
    (w as usize * n..8 * bytes.len()).all(|j| bit_at(bytes, j) == 0)
}

// The n counters that stand packed from a position on, laid into a column from another. Answers whether they were:
// otherwise, where n such counters or the room for them are not there, nothing is written.
#[tactic(auto, unfolding(crate::specs::Packing::unpack_into))]
pub fn unpack(s: &[u8], at: usize, n: usize, w: u32, counts: &mut [i64], from: usize) -> bool
    ensures { (result ≡ unpacks w n at s.now from counts.old)
        × (counts.new ≡ unpack_into w n at s.now from counts.old) }
{
    let Some(bytes) = packed_at(s, at, n, w) else {
        return false;
    };
    if counts.len() < n || counts.len() - n < from {
        return false;
    }
    unpack_all(bytes, w, &mut counts[from..from + n]);
    true
}

// A count as the number that is packed: 0 where it is below zero.
pub fn number_of(c: i64) -> u64
    ensures { result ≡ number c }
{
    c.max(0) as u64
}

// Packed bit j is bit j mod w, both counted from the highest from 0, of counter j / w; spare bits are zero.
fn pack_bits(counts: &[i64], w: u32, out: &mut [u8])
    requires { Packed w (length counts.now) out.old }
    ensures { out.new ≡ packed w (numbers counts.now) }
{
    // Zeros, so that a bit is set by being put in, and those that are not put in are zero.
    out.fill(0);
    for j in 0..w * (counts.len() as u32) {
        let counter = number_of(counts[(j / w) as usize]);
        let bit = bit_of(counter, w, j % w) as u8;
        out[(j / 8) as usize] |= bit << (7 - j % 8);
    }
}

// Each counter, one bit at a time.
fn unpack_all(bytes: &[u8], w: u32, column: &mut [i64])
    requires { Packed w (length column.old) bytes.now }
    ensures { column.new ≡ map pos (unpacked w (length column.old) bytes.now) }
{
    let n = column.len();
    for (i, c) in column.iter_mut().enumerate() {
        *c = i64::from(counter(bytes, n, w, i));
    }
}

// Bit k of counter i is packed bit j = w × i + k, both counted from the highest from 0: i is j / w, and k is j mod w.
fn counter(bytes: &[u8], n: usize, w: u32, i: usize) -> u32
    requires { Packed w n bytes.now × (i < n) }
    ensures { result ≡ get_or (unpacked w n bytes.now) i 0 }
{
    let first = w as usize * i;
    let mut c: u32 = 0;
    for k in 0..w as usize {
        c = 2 * c + bit_at(bytes, first + k);
    }
    c
}

// Bit j of bytes, counted from the highest from 0.
fn bit_at(bytes: &[u8], j: usize) -> u32
    requires { j / 8 < length bytes.now }
    ensures { result ≡ bit_at 8 bytes.now j }
{
    bit_of(u64::from(bytes[j / 8]), 8, (j % 8) as u32) as u32
}

// Bit k, counted from the highest from 0, of a number of w bits.
fn bit_of(x: u64, w: u32, k: u32) -> u64
    requires { (k < w) × (w ≤ 32) }
    ensures { (result ≡ x / 2 ^ (w - 1 - k) % 2) × (result < 2) }
{
    (x >> (w - 1 - k)) % 2
}

// The bytes in which n counters stand packed at width w from a position on, if they are there.
fn packed_at(s: &[u8], at: usize, n: usize, w: u32) -> Option<&[u8]>
    ensures { MatchOption result (takes w n at (length s.now) ≡ false) (λ b. (takes w n at (length s.now) ≡ true) × (b.now ≡ part at (bytes_for (w * n)) s.now)) }
{
    if takes_room(w, n, at, s.len()) {
        Some(&s[at..at + bytes_for(w, n)])
    } else {
        None
    }
}

fn takes_room(w: u32, n: usize, at: usize, room: usize) -> bool
    ensures { result ≡ takes w n at room }
{
    is_width(w) && n <= 65536 && bytes_for(w, n) <= room && at <= room - bytes_for(w, n)
}

// The bytes that n counters of w bits take.
fn bytes_for(w: u32, n: usize) -> usize
    requires { (w ≤ 32) × (n ≤ 65536) }
    ensures { (result ≡ bytes_for (w * n)) × (result ≤ 262144) }
{
    (w as usize * n).div_ceil(8)
}

fn is_width(w: u32) -> bool
    ensures { result ≡ is_width w }
{
    1 <= w && w <= 32
}

fn has_bits(c: i64, w: u32) -> bool
    requires { w ≤ 32 }
    ensures { result ≡ has_bits w c }
{
    u64::try_from(c).is_ok_and(|n| n < 1 << w)
}
