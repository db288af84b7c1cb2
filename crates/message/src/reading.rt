// One message read: its kind and numbers, or that the bytes are none.
ghost use Rattle.std.specs.Prelude.{◌≡◌};
ghost use Rattle.message.specs.Kinds.{type_of};
ghost use Rattle.message.specs.Layout.{in_slice};
ghost use Rattle.message.specs.Reading.{hashes_fit, parse, parse_inquiry, parse_slice, slice_fits};

use crate::kinds::{Kind, Message, Slice};

// The whole of s read as exactly one message.
#[tactic(auto, unfolding(crate::specs::Reading::parse))]
pub fn read(s: &[u8]) -> Option<Message>
    ensures { result ≡ parse s.now }
{
    if s.len() < 4 {
        return None;
    }
    if bucket::bytes::number_at(s, 0, 2) != s.len() as u64 {
        return None;
    }
    let kind = Kind::try_from(crate::fields::word_at(s, 2, 2)).ok()?;
    match kind {
        Kind::Ibf | Kind::IbfLast => read_slice(s, kind),
        Kind::Inquiry => read_inquiry(s),
        Kind::Offer if hashes_fit(s.len()) => Some(Message::Offer {
            count: s.len() / 64,
        }),
        Kind::Demand if hashes_fit(s.len()) => Some(Message::Demand {
            count: s.len() / 64,
        }),
        Kind::Element if 5 <= s.len() => Some(Message::Element {
            length: s.len() - 4,
        }),
        Kind::Done if s.len() == 68 => Some(Message::Done),
        _ => None,
    }
}

#[tactic(auto, unfolding(crate::specs::Reading::parse_slice))]
fn read_slice(s: &[u8], kind: Kind) -> Option<Message>
    ensures { result ≡ parse_slice (type_of kind) s.now }
{
    if s.len() < 16 {
        return None;
    }
    let size = crate::fields::word_at(s, 4, 4);
    let offset = crate::fields::word_at(s, 8, 4);
    let slice = Slice {
        size,
        offset,
        salt: crate::fields::word_at(s, 12, 2),
        width: crate::fields::word_at(s, 14, 2),
        count: crate::slices::in_slice(size, offset),
    };
    if !slice_fits(kind, slice, s.len()) {
        return None;
    }
    if !bucket::packing::spare_is_zero(s, 16 + 12 * slice.count, slice.count, slice.width) {
        return None;
    }
    Some(match kind {
        Kind::IbfLast => Message::IbfLast(slice),
        _ => Message::Ibf(slice),
    })
}

fn slice_fits(kind: Kind, slice: Slice, len: usize) -> bool
    requires { slice.count ≡ in_slice slice.size slice.offset }
    ensures { result ≡ slice_fits (type_of kind) slice.size slice.offset slice.salt slice.width len }
{
    let Slice {
        size,
        offset,
        salt,
        width,
        count,
    } = slice;
    37 <= size
        && size <= 4096
        && (offset == 0 || offset == crate::slices::SECOND)
        && offset < size
        && salt < 64
        && 1 <= width
        && width <= 32
        && kind == crate::slices::slice_type(size, offset)
        && len == crate::slices::slice_bytes(width, count)
}

#[tactic(auto, unfolding(crate::specs::Reading::parse_inquiry))]
fn read_inquiry(s: &[u8]) -> Option<Message>
    ensures { result ≡ parse_inquiry s.now }
{
    if s.len() < 16 {
        return None;
    }
    let salt = crate::fields::word_at(s, 4, 4);
    if s.len() % 8 == 0 && salt < 64 {
        return Some(Message::Inquiry {
            salt,
            count: (s.len() - 8) / 8,
        });
    }
    None
}

fn hashes_fit(len: usize) -> bool
    ensures { result ≡ hashes_fit len }
{
    68 <= len && len % 64 == 4
}
