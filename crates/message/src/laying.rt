// A slice of a filter laid into three lent columns.
ghost use Rattle.std.specs.Prelude.{◌≡◌, true, map, ◌+◌, ◌*◌, ◌≤◌, length};
ghost use Rattle.std.specs.Result.{result_err};
ghost use Rattle.bucket.specs.Columns.{columns};
ghost use Rattle.bucket.specs.Digits.{unpacked};
ghost use Rattle.bucket.specs.Packing.{takes};
ghost use Rattle.message.specs.Laying.{lay, lay_call};
ghost use Rattle.message.specs.Putting.{lay_buckets};

use crate::copying::Number;
use crate::kinds::{Message, Slice};
use filter::answers::Refusal;

// Lays the slice of an IBF or IBF LAST message into the columns, from its offset on. Refused: a column too short for it, or no such message;
// then nothing is changed.
#[tactic(auto, unfolding(crate::specs::Laying::lay_call))]
pub fn lay(s: &[u8], ids: &mut [u64], hashes: &mut [u32], counts: &mut [i64]) -> Result<(), Refusal>
    ensures { lay (result_err result) (columns ids.new hashes.new counts.new)
        ≡ lay_call s.now (columns ids.old hashes.old counts.old) }
{
    let Some(slice) = crate::reading::read(s).and_then(Message::slice) else {
        return Err(Refusal::Malformed);
    };
    lay_slice(s, slice, ids, hashes, counts)
}

// The buckets of a slice that stand in its message's bytes, laid from its offset on.
#[tactic(auto, unfolding(crate::specs::Putting::lay_buckets))]
fn lay_slice(
    s: &[u8],
    slice: Slice,
    ids: &mut [u64],
    hashes: &mut [u32],
    counts: &mut [i64],
) -> Result<(), Refusal>
    requires { (slice.offset ≤ 4096) × (slice.count ≤ 2520)
        × (takes slice.width slice.count (16 + 12 * slice.count) (length s.now) ≡ true) }
    ensures { lay (result_err result) (columns ids.new hashes.new counts.new)
        ≡ lay_buckets slice.offset slice.width slice.count s.now (columns ids.old hashes.old counts.old) }
{
    let Slice {
        offset,
        width,
        count: n,
        ..
    } = slice;
    if !filter::forms::has_room(ids, hashes, counts, offset + n as u32) {
        return Err(Refusal::Room);
    }
    let from = offset as usize;
    let to = from + n;
    let middle = 16 + 8 * n;
    lay_numbers(&s[16..middle], &mut ids[from..to]);
    lay_numbers(&s[middle..middle + 4 * n], &mut hashes[from..to]);
    bucket::packing::unpack(s, 16 + 12 * n, n, width, counts, from);
    Ok(())
}

// The numbers that stand in the bytes, one behind the other.
fn lay_numbers<T: Number>(s: &[u8], xs: &mut [T])
    requires { length s.now ≡ T.BYTES * length xs.old }
    ensures { map T.value xs.new ≡ unpacked (8 * T.BYTES) (length xs.old) s.now }
{
    for (j, x) in xs.iter_mut().enumerate() {
        *x = T::of(bucket::bytes::number_at(s, T::BYTES * j, T::BYTES));
    }
}
