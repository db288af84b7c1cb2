// Messages, as far as a C caller meets them: one read, a buffer walked, an element and a filter written, a filter's slice laid.
ghost use Rattle.std.specs.Prelude.{◌≡◌, length};
ghost use Rattle.bucket.specs.Columns.{columns};
ghost use Rattle.filter.specs.Calls.{built};
ghost use Rattle.message.specs.Reading.{numbers_of};
ghost use Rattle.message.specs.Laying.{lay_numbers, lay_call};
ghost use Rattle.message.specs.Walking.{exactly_one, walk_at, walk_numbers};
ghost use Rattle.message.specs.Writing.{left, write_numbers, element_call, filter_call};

use message::kinds::{MessageNumbers, Written};

// The whole of the bytes as exactly one message.
#[unsafe(no_mangle)]
pub extern "C" fn tandawire_message_read(message: &[u8]) -> MessageNumbers
    ensures { result ≡ numbers_of (exactly_one message.now) 0 (length message.now) }
{
    message::kinds::message_numbers(message::reading::read(message), 0, message.len())
}

// The message at a position of a buffer.
#[unsafe(no_mangle)]
pub extern "C" fn tandawire_message_at(buffer: &[u8], at: usize) -> MessageNumbers
    ensures { result ≡ walk_numbers (walk_at buffer.now at) at }
{
    message::walking::numbers_at(buffer, at)
}

// One ELEMENT, from a position of a buffer.
#[unsafe(no_mangle)]
pub extern "C" fn tandawire_element_write(content: &[u8], out: &mut [u8], at: usize) -> Written
    ensures { left result out.new ≡ write_numbers (element_call content.now at out.old) }
{
    Written::from(message::writing::element(content, out, at))
}

// A whole filter, from a position of a buffer.
#[unsafe(no_mangle)]
pub extern "C" fn tandawire_filter_write(
    ids: &[u64],
    hashes: &[u32],
    counts: &[i64],
    size: u32,
    salt: u32,
    out: &mut [u8],
    at: usize,
) -> Written
    ensures { left result out.new
        ≡ write_numbers (filter_call size salt (columns ids.now hashes.now counts.now) at out.old) }
{
    Written::from(message::filters::filter(ids, hashes, counts, size, salt, out, at))
}

// The slice of an IBF or IBF LAST message, laid into three columns; answers the refusal number, 0 for none.
#[unsafe(no_mangle)]
pub extern "C" fn tandawire_filter_lay(
    message: &[u8],
    ids: &mut [u64],
    hashes: &mut [u32],
    counts: &mut [i64],
) -> u32
    ensures { built result (columns ids.new hashes.new counts.new)
        ≡ lay_numbers (lay_call message.now (columns ids.old hashes.old counts.old)) }
{
    filter::answers::number(message::laying::lay(message, ids, hashes, counts))
}
