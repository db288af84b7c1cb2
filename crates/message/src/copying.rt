// Numbers and bytes put into a lent buffer, where there is room for them. The buffer goes with a position, as the C interface lends it
// (tandawire_filter_write, tandawire_element_write).
ghost use Rattle.std.specs.Prelude.{◌≡◌, [], ◌∷◌, map, ℕ, ◌+◌, ◌*◌, ◌^◌, ◌≤◌, ◌<◌, length};
ghost use Rattle.std.proofs.Common.{rules};
ghost use Rattle.bucket.specs.Digits.{packed};
ghost use Rattle.bucket.specs.Lists.{over};

// What stands in a column, and how many bytes it takes in a message: an ID eight, a hash four.
pub(crate) trait Number: Copy {
    ghost BYTES: { ℕ };

    ghost value: { Self → ℕ };

    const BYTES: usize;

    fn number(self) -> u64
        ensures { result ≡ value self };

    // The one with a number that the bytes can hold.
    fn of(x: u64) -> Self
        requires { x < 2 ^ (8 * BYTES) }
        ensures { value result ≡ x };

    ghost few: { BYTES ≤ 8 };
}

impl Number for u64 {
    ghost BYTES = { 8 };

    ghost value = { λ x. x };

    ghost few = { Prim.search rules };

    const BYTES: usize = 8;

    fn number(self) -> u64 {
        self
    }

    fn of(x: u64) -> u64 {
        x
    }
}

impl Number for u32 {
    ghost BYTES = { 4 };

    ghost value = { λ x. x };

    ghost few = { Prim.search rules };

    const BYTES: usize = 4;

    fn number(self) -> u64 {
        u64::from(self)
    }

    fn of(x: u64) -> u32 {
        // By `as`: four bytes always fit, and `try_from` would want a value for a case that there isn't.
        x as u32
    }
}

// Numbers one behind the other; answers the position behind them.
pub(crate) fn put_numbers<T: Number>(xs: &[T], out: &mut [u8], at: usize) -> usize
    requires { at + T.BYTES * length xs.now ≤ length out.old }
    ensures next { result ≡ at + T.BYTES * length xs.now }
    ensures put { out.new ≡ over at (packed (8 * T.BYTES) (map T.value xs.now)) out.old }
{
    for (j, x) in xs.iter().enumerate() {
        bucket::bytes::put_number(out, at + T::BYTES * j, T::BYTES, x.number());
    }
    at + T::BYTES * xs.len()
}

// Bytes as they are. One at a time, so that the archive of `probe` needs no memmove from outside.
pub(crate) fn put_bytes(bytes: &[u8], out: &mut [u8], at: usize)
    requires { at + length bytes.now ≤ length out.old }
    ensures { out.new ≡ over at bytes.now out.old }
{
    for j in 0..bytes.len() {
        out[at + j] = bytes[j];
    }
}

// Two numbers of k bytes.
pub(crate) fn put_pair(out: &mut [u8], at: usize, k: usize, x: u64, y: u64)
    requires { (k ≤ 8) × (at + k + k ≤ length out.old) }
    ensures { out.new ≡ over at (packed (8 * k) (x ∷ y ∷ [])) out.old }
{
    bucket::bytes::put_number(out, at, k, x);
    bucket::bytes::put_number(out, at + k, k, y);
}
