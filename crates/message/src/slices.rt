// The numbers of a slice, for reader and writer.
ghost use Rattle.std.specs.Prelude.{◌≡◌, ◌≤◌};
ghost use Rattle.message.specs.Kinds.{type_of};
ghost use Rattle.message.specs.Layout.{in_slice, slice_type, slice_bytes};

use crate::kinds::Kind;

// The most buckets of a slice (document 01, after 002: 32,768 / 13).
pub(crate) const MOST_BUCKETS: u32 = 2520;

// The offset of a second slice, which begins where a full one ends.
pub(crate) const SECOND: u32 = MOST_BUCKETS;

// How many buckets the slice at an offset has.
pub(crate) fn in_slice(size: u32, offset: u32) -> usize
    ensures { result ≡ in_slice size offset }
{
    size.saturating_sub(offset).min(MOST_BUCKETS) as usize
}

// IBF LAST reaches the end.
pub(crate) fn slice_type(size: u32, offset: u32) -> Kind
    ensures { type_of result ≡ slice_type size offset }
{
    if (offset as usize) + in_slice(size, offset) == size as usize {
        Kind::IbfLast
    } else {
        Kind::Ibf
    }
}

// The size of a slice's message.
pub(crate) fn slice_bytes(width: u32, n: usize) -> usize
    requires { n ≤ 2520 }
    ensures { result ≡ slice_bytes width n }
{
    16 + 12 * n + (width as usize * n).div_ceil(8)
}
