// A field of a message, read.
ghost use Rattle.std.specs.Prelude.{◌≡◌, ◌≤◌};
ghost use Rattle.message.specs.Reading.{field};

// A field of at most four bytes.
pub(crate) fn word_at(s: &[u8], at: usize, k: usize) -> u32
    requires { k ≤ 4 }
    ensures { result ≡ field k at s.now }
{
    // By `as`: four bytes always fit, and `try_from` would want a value for a case that there isn't.
    bucket::bytes::number_at(s, at, k) as u32
}
