// Numbers as bytes, most significant first.
ghost use Rattle.std.specs.Prelude.{◌≡◌, ◌+◌, ◌<◌, ◌≤◌, min, length};
ghost use Rattle.bucket.specs.Digits.{joined, groups, put_into};
ghost use Rattle.bucket.specs.Lists.{over, part};

// The number in the k bytes from a position on: of at most eight, and of those that are there.
pub fn number_at(s: &[u8], at: usize, k: usize) -> u64
    ensures { result ≡ joined 8 (part at (min 8 k) s.now) }
{
    if s.len() <= at {
        return 0;
    }
    let rest = &s[at..];
    let most = k.min(8);
    // Apart from the rest, so that a number of k known bytes is compiled to one load.
    if most <= rest.len() {
        return joined(&rest[..most]);
    }
    joined(rest)
}

// The k low bytes of x from a position on. Nothing is written where k is above eight or the bytes do not fit.
#[tactic(auto, unfolding(crate::specs::Digits::put_into))]
pub fn put_number(s: &mut [u8], at: usize, k: usize, x: u64)
    ensures { s.new ≡ put_into at k x s.old }
{
    if 8 < k || s.len() < k || s.len() - k < at {
        return;
    }
    put_groups(s, at, k, x);
}

// A byte as a number, whose bound its callers know. For callers outside: the crates here convert bytes where they read them.
pub fn wide(x: u8) -> u64
    ensures { (result ≡ x) × (result < 256) }
{
    u64::from(x)
}

// The k low bytes of x from a position on, where they fit: one at a time, since a copy of k bytes is compiled to a call of memcpy.
fn put_groups(s: &mut [u8], at: usize, k: usize, x: u64)
    requires { (at + k ≤ length s.old) × (k ≤ 8) }
    ensures { s.new ≡ over at (groups 8 k x) s.old }
{
    for j in 0..k {
        s[at + j] = ((x >> (8 * (k - 1 - j))) % 256) as u8;
    }
}

// The number in at most eight bytes.
fn joined(bytes: &[u8]) -> u64
    requires { length bytes.now ≤ 8 }
    ensures { result ≡ joined 8 bytes.now }
{
    bytes.iter().fold(0, |v, b| (v << 8) | u64::from(*b))
}
