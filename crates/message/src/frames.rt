// One message put into a lent buffer, where there is room for it. A filter comes in three columns, which document 01 asks to be lent side by side.
ghost use Rattle.std.specs.Prelude.{◌≡◌, ◌+◌, ◌*◌, ◌≤◌, length, [], ◌∷◌};
ghost use Rattle.bucket.specs.Columns.{columns};
ghost use Rattle.bucket.specs.Digits.{packed};
ghost use Rattle.bucket.specs.Lists.{over};
ghost use Rattle.message.specs.Kinds.{type_of};
ghost use Rattle.message.specs.Layout.{inquiry, layout, framed, in_slice, slice_bytes};
ghost use Rattle.message.specs.Writing.{slice_at, layouts, slices_of};
ghost use Rattle.message.specs.Putting.{head_of, SlicePut, FilterPut, filter_bytes};

use crate::copying::{put_bytes, put_numbers, put_pair};
use crate::kinds::{Kind, Slice};
use crate::slices::{SECOND, in_slice, slice_bytes, slice_type};

// MSG SIZE and MSG TYPE, which every message begins with.
fn put_start(kind: Kind, size: usize, out: &mut [u8], at: usize)
    requires { at + 4 ≤ length out.old }
    ensures { out.new ≡ over at (packed 16 (size ∷ type_of kind ∷ [])) out.old }
{
    put_pair(out, at, 2, size as u64, u64::from(u32::from(kind)));
}

// MSG SIZE and MSG TYPE before bytes that are copied; answers the position behind them.
pub(crate) fn put_framed(kind: Kind, bytes: &[u8], out: &mut [u8], at: usize) -> usize
    requires { at + (4 + length bytes.now) ≤ length out.old }
    ensures next { result ≡ at + (4 + length bytes.now) }
    ensures put { out.new ≡ over at (framed (type_of kind) bytes.now) out.old }
{
    let size = 4 + bytes.len();
    put_start(kind, size, out, at);
    put_bytes(bytes, out, at + 4);
    at + size
}

// One INQUIRY of the IDs; answers the position behind it.
pub(crate) fn put_inquiry(ids: &[u64], salt: u32, out: &mut [u8], at: usize) -> usize
    requires { at + (8 + 8 * length ids.now) ≤ length out.old }
    ensures next { result ≡ at + (8 + 8 * length ids.now) }
    ensures put { out.new ≡ over at (layout (inquiry salt ids.now)) out.old }
{
    put_start(Kind::Inquiry, 8 + 8 * ids.len(), out, at);
    bucket::bytes::put_number(out, at + 4, 4, u64::from(salt));
    put_numbers(ids, out, at + 8)
}

// The sixteen bytes before a slice's columns; answers the position behind them.
fn put_head(slice: Slice, out: &mut [u8], at: usize) -> usize
    requires few { slice.count ≤ 2520 }
    requires room { at + 16 ≤ length out.old }
    ensures next { result ≡ at + 16 }
    ensures put { out.new ≡ over at (head_of slice) out.old }
{
    let Slice {
        size,
        offset,
        salt,
        width,
        count,
    } = slice;
    put_start(slice_type(size, offset), slice_bytes(width, count), out, at);
    put_pair(out, at + 4, 4, u64::from(size), u64::from(offset));
    put_pair(out, at + 12, 2, u64::from(salt), u64::from(width));
    at + 16
}

// The slice at an offset of a filter in three columns; answers the position behind it.
fn put_slice(
    ids: &[u64],
    hashes: &[u32],
    counts: &[i64],
    slice: Slice,
    out: &mut [u8],
    at: usize,
) -> usize
    requires count { slice.count ≡ in_slice slice.size slice.offset }
    requires put { SlicePut slice.size slice.offset slice.width (columns ids.now hashes.now counts.now) out.old at }
    ensures next { result ≡ at + slice_bytes slice.width (in_slice slice.size slice.offset) }
    ensures put { out.new
        ≡ over at (layout (slice_at slice.size slice.offset slice.salt slice.width (columns ids.now hashes.now counts.now))) out.old }
{
    let from = slice.offset as usize;
    let to = from + slice.count;
    let next = put_head(slice, out, at);
    let next = put_numbers(&ids[from..to], out, next);
    let next = put_numbers(&hashes[from..to], out, next);
    bucket::packing::pack(&counts[from..to], slice.width, out, next)
}

// A whole filter, in one slice or two; answers the position behind it.
pub(crate) fn put_filter(
    ids: &[u64],
    hashes: &[u32],
    counts: &[i64],
    size: u32,
    salt: u32,
    width: u32,
    out: &mut [u8],
    at: usize,
) -> usize
    requires { FilterPut size width (columns ids.now hashes.now counts.now) out.old at }
    ensures { (result ≡ at + filter_bytes width size)
        × (out.new ≡ over at (layouts (slices_of size salt width (columns ids.now hashes.now counts.now))) out.old) }
{
    let first = Slice {
        size,
        offset: 0,
        salt,
        width,
        count: in_slice(size, 0),
    };
    let next = put_slice(ids, hashes, counts, first, out, at);
    if size <= SECOND {
        return next;
    }
    let second = Slice {
        offset: SECOND,
        count: in_slice(size, SECOND),
        ..first
    };
    put_slice(ids, hashes, counts, second, out, next)
}
