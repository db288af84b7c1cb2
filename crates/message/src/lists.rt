// Lists cut into messages and put into a lent buffer, where there is room for them.
ghost use Rattle.std.specs.Prelude.{◌≡◌, ◌+◌, ◌*◌, ◌%◌, ◌≤◌, length};
ghost use Rattle.bucket.specs.Lists.{over};
ghost use Rattle.filter.specs.Table.{hashes_of};
ghost use Rattle.message.specs.Kinds.{type_of};
ghost use Rattle.message.specs.Layout.{inquiry, layout};
ghost use Rattle.message.specs.Writing.{pieces};
ghost use Rattle.message.specs.Putting.{cut_bytes, end_to_end, framed_hashes};

use crate::kinds::Kind;

// The most IDs of an INQUIRY, and the bytes of the most hashes of an OFFER or DEMAND, 1,023.
const MOST_IDS: usize = 8190;

const MOST_BYTES: usize = 65472;

// IDs as INQUIRY messages.
pub(crate) fn put_inquiries(ids: &[u64], salt: u32, out: &mut [u8], at: usize)
    requires { at + cut_bytes 8190 8 8 (length ids.now) ≤ length out.old }
    ensures { out.new ≡ over at (end_to_end (λ l. layout (inquiry salt l)) (pieces 8190 ids.now)) out.old }
{
    let mut p = at;
    for piece in ids.chunks(MOST_IDS) {
        p = crate::frames::put_inquiry(piece, salt, out, p);
    }
}

// Hashes of 64 bytes end to end as OFFER or DEMAND messages.
pub(crate) fn put_offers(bytes: &[u8], kind: Kind, out: &mut [u8], at: usize)
    requires { (length bytes.now % 64 ≡ 0) × (at + cut_bytes 1023 4 64 (length (hashes_of bytes.now)) ≤ length out.old) }
    ensures { out.new ≡ over at (end_to_end (framed_hashes (type_of kind)) (pieces 1023 (hashes_of bytes.now))) out.old }
{
    let mut p = at;
    for piece in bytes.chunks(MOST_BYTES) {
        p = crate::frames::put_framed(kind, piece, out, p);
    }
}
