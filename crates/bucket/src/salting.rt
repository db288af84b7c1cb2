// Salting: an ID is rotated right by (salt × 7) mod 64, and back. A salt above 63 counts modulo 64.
ghost use Rattle.std.specs.Prelude.{◌≡◌};
ghost use Rattle.bucket.specs.Salt.{salted, unsalted};

pub fn salt(x: u64, t: u32) -> u64
    ensures { result ≡ salted t x }
{
    x.rotate_right(t % 64 * 7)
}

pub fn unsalt(x: u64, t: u32) -> u64
    ensures { result ≡ unsalted t x }
{
    x.rotate_left(t % 64 * 7)
}
