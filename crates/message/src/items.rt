// The items of a message, read by number out of its bytes: 0, or no bytes, where they do not hold them.
ghost use Rattle.std.specs.Prelude.{◌≡◌, ◌≤◌};
ghost use Rattle.message.specs.Items.{id_at, idsum_at, hashsum_at, counter_of, hash_part, content_of};
ghost use Rattle.message.specs.Putting.{item_in};

use crate::fields::word_at;
use crate::slices::MOST_BUCKETS;
use bucket::bytes::number_at;

// ID i of an INQUIRY.
pub fn id_at(s: &[u8], i: usize) -> u64
    ensures { result ≡ id_at s.now i }
{
    number_at(item(s, 8, 8, i), 0, 8)
}

// IDSUM i of a slice of n buckets.
pub fn idsum_at(s: &[u8], n: usize, i: usize) -> u64
    ensures { result ≡ idsum_at n s.now i }
{
    if i < n {
        number_at(item(s, 16, 8, i), 0, 8)
    } else {
        0
    }
}

// HASHSUM i of a slice of n buckets.
pub fn hashsum_at(s: &[u8], n: usize, i: usize) -> u32
    ensures { result ≡ hashsum_at n s.now i }
{
    if n <= MOST_BUCKETS as usize && i < n {
        word_at(item(s, 16 + 8 * n, 4, i), 0, 4)
    } else {
        0
    }
}

// Counter i of a slice of n buckets at a width.
pub fn counter_at(s: &[u8], n: usize, width: u32, i: usize) -> u32
    ensures { result ≡ counter_of n width s.now i }
{
    if n <= MOST_BUCKETS as usize {
        bucket::packing::counter_at(s, 16 + 12 * n, n, width, i)
    } else {
        0
    }
}

// Hash i of an OFFER or DEMAND, as a part of the bytes; of a DONE the checksum is hash 0.
pub fn hash_at(s: &[u8], i: usize) -> &[u8]
    ensures { result.now ≡ hash_part s.now i }
{
    item(s, 4, 64, i)
}

// What an ELEMENT carries, as a part of the bytes.
pub fn content(s: &[u8]) -> &[u8]
    ensures { result.now ≡ content_of s.now }
{
    s.get(4..).unwrap_or(&[])
}

// Item i of those of k bytes each that stand from a position on, or no bytes.
fn item(s: &[u8], from: usize, k: usize, i: usize) -> &[u8]
    requires { 1 ≤ k }
    ensures { result.now ≡ item_in k from s.now i }
{
    match s.get(from..) {
        Some(items) if i < items.len() / k => &items[k * i..k * i + k],
        _ => &[],
    }
}
