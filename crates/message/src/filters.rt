// A whole filter written as one slice or two.
ghost use Rattle.std.specs.Prelude.{◌≡◌, true, ◌≤◌};
ghost use Rattle.bucket.specs.Columns.{columns};
ghost use Rattle.bucket.specs.Counts.{width_of};
ghost use Rattle.bucket.specs.Packing.{numbers};
ghost use Rattle.filter.specs.Calls.{all_counts};
ghost use Rattle.message.specs.Writing.{write, filter_call, largest};
ghost use Rattle.message.specs.Putting.{filter_bytes};

use crate::slices::{SECOND, in_slice, slice_bytes};
use bucket::packing::number_of;
use filter::answers::Refusal;

// The filter in the first size places of three columns, from a position of a lent buffer, at the smallest width for all of it; answers the next
// position. Refused: a COUNT out of range, then a size or salt out of range, then a column or the buffer too short; then nothing is changed.
#[tactic(auto, unfolding(crate::specs::Writing::filter_call, crate::specs::Writing::wrote))]
pub fn filter(
    ids: &[u64],
    hashes: &[u32],
    counts: &[i64],
    size: u32,
    salt: u32,
    out: &mut [u8],
    at: usize,
) -> Result<usize, Refusal>
    ensures { write result out.new
        ≡ filter_call size salt (columns ids.now hashes.now counts.now) at out.old }
{
    if !filter::forms::are_counts(counts, size) {
        return Err(Refusal::Form);
    }
    if !filter::forms::in_range(size, salt) {
        return Err(Refusal::Range);
    }
    if !filter::forms::has_room(ids, hashes, counts, size) {
        return Err(Refusal::Room);
    }
    let width = width_for(&counts[..size as usize]);
    crate::writing::room_for(at, filter_bytes(width, size), out.len())?;
    Ok(crate::frames::put_filter(ids, hashes, counts, size, salt, width, out, at))
}

// The smallest width that holds the counts, at least 1.
fn width_for(counts: &[i64]) -> u32
    requires { all_counts counts.now ≡ true }
    ensures { result ≡ width_of (largest (numbers counts.now)) }
{
    // By `as`, as no count is above 2^32 - 1.
    bucket::counts::width(largest(counts) as u32)
}

// The largest of the counts, or 0.
fn largest(counts: &[i64]) -> u64
    ensures { result ≡ largest (numbers counts.now) }
{
    counts.iter().fold(0, |most, c| most.max(number_of(*c)))
}

// The bytes of a whole filter.
fn filter_bytes(width: u32, size: u32) -> usize
    requires { size ≤ 4096 }
    ensures { result ≡ filter_bytes width size }
{
    let second = if SECOND < size {
        slice_bytes(width, in_slice(size, SECOND))
    } else {
        0
    };
    slice_bytes(width, in_slice(size, 0)) + second
}
