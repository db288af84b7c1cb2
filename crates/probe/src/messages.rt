// Writers of lists, and the items of a message.
ghost use Rattle.std.specs.Prelude.{◌≡◌, min, length};
ghost use Rattle.bucket.specs.Digits.{joined};
ghost use Rattle.bucket.specs.Lists.{part};
ghost use Rattle.message.specs.Items.{id_at, idsum_at, hashsum_at, counter_of, hash_part, content_of};
ghost use Rattle.message.specs.Writing.{left, write_numbers, inquiry_call, hashes_call, offers_of, demands_of, done_call};

use message::kinds::Written;

#[unsafe(no_mangle)]
pub extern "C" fn tandawire_inquiry_write(
    ids: &[u64],
    salt: u32,
    out: &mut [u8],
    at: usize,
) -> Written
    ensures { left result out.new ≡ write_numbers (inquiry_call salt ids.now at out.old) }
{
    Written::from(message::writing::inquiry(ids, salt, out, at))
}

#[unsafe(no_mangle)]
pub extern "C" fn tandawire_offer_write(hashes: &[u8], out: &mut [u8], at: usize) -> Written
    ensures { left result out.new ≡ write_numbers (hashes_call offers_of hashes.now at out.old) }
{
    Written::from(message::writing::offer(hashes, out, at))
}

#[unsafe(no_mangle)]
pub extern "C" fn tandawire_demand_write(hashes: &[u8], out: &mut [u8], at: usize) -> Written
    ensures { left result out.new ≡ write_numbers (hashes_call demands_of hashes.now at out.old) }
{
    Written::from(message::writing::demand(hashes, out, at))
}

#[unsafe(no_mangle)]
pub extern "C" fn tandawire_done_write(check: &[u8], out: &mut [u8], at: usize) -> Written
    ensures { left result out.new ≡ write_numbers (done_call check.now at out.old) }
{
    Written::from(message::writing::done(check, out, at))
}

#[unsafe(no_mangle)]
pub extern "C" fn tandawire_message_id(s: &[u8], i: usize) -> u64
    ensures { result ≡ id_at s.now i }
{
    message::items::id_at(s, i)
}

#[unsafe(no_mangle)]
pub extern "C" fn tandawire_message_idsum(s: &[u8], n: usize, i: usize) -> u64
    ensures { result ≡ idsum_at n s.now i }
{
    message::items::idsum_at(s, n, i)
}

#[unsafe(no_mangle)]
pub extern "C" fn tandawire_message_hashsum(s: &[u8], n: usize, i: usize) -> u32
    ensures { result ≡ hashsum_at n s.now i }
{
    message::items::hashsum_at(s, n, i)
}

#[unsafe(no_mangle)]
pub extern "C" fn tandawire_message_counter(s: &[u8], n: usize, width: u32, i: usize) -> u32
    ensures { result ≡ counter_of n width s.now i }
{
    message::items::counter_at(s, n, width, i)
}

// Of hash i, the number in the k bytes from a position on.
#[unsafe(no_mangle)]
pub extern "C" fn tandawire_message_hash(s: &[u8], i: usize, at: usize, k: usize) -> u64
    ensures { result ≡ joined 8 (part at (min 8 k) (hash_part s.now i)) }
{
    bucket::bytes::number_at(message::items::hash_at(s, i), at, k)
}

// The same of an ELEMENT's content.
#[unsafe(no_mangle)]
pub extern "C" fn tandawire_message_content(s: &[u8], at: usize, k: usize) -> u64
    ensures { result ≡ joined 8 (part at (min 8 k) (content_of s.now)) }
{
    bucket::bytes::number_at(message::items::content(s), at, k)
}

#[unsafe(no_mangle)]
pub extern "C" fn tandawire_message_content_length(s: &[u8]) -> usize
    ensures { result ≡ length (content_of s.now) }
{
    let content = message::items::content(s);
    content.len()
}
