// Messages written from a position of a lent buffer: lists, an element, the end. Each answers the next position, or why it wrote nothing; what is
// before and behind is unchanged.
ghost use Rattle.std.specs.Prelude.{◌≡◌, cond, List, map, ℕ, ◌+◌, ◌≤◌, ◌^◌, leb, Ok, Err};
ghost use Rattle.filter.specs.declared.answers.Refusal.TheVariants.{Room};
ghost use Rattle.message.specs.Kinds.{type_of};
ghost use Rattle.message.specs.Writing.{write, pieces, inquiry_call, hashes_call, offers_of, demands_of, element_call, done_call};
ghost use Rattle.message.specs.Layout.{Content};
ghost use Rattle.message.specs.Putting.{Says, cut_bytes};

use crate::kinds::Kind;
use filter::answers::Refusal;

// The longest content of an ELEMENT.
const MOST_CONTENT: usize = 65531;

// INQUIRY messages for a list of IDs. Refused: a salt out of range, then too little room.
#[tactic(auto, using(crate::proofs::SizeLaws::inquiry_bytes), unfolding(crate::specs::Writing::inquiry_call, crate::specs::Writing::wrote, crate::specs::Writing::have_room))]
pub fn inquiry(ids: &[u64], salt: u32, out: &mut [u8], at: usize) -> Result<usize, Refusal>
    ensures { write result out.new ≡ inquiry_call salt ids.now at out.old }
{
    if 63 < salt {
        return Err(Refusal::Range);
    }
    let n = ids.len();
    let end = room_for(at, 8 * n.div_ceil(8190) + 8 * n, out.len())?;
    crate::lists::put_inquiries(ids, salt, out, at);
    Ok(end)
}

// OFFER messages for hashes of 64 bytes end to end. Refused: bytes that are no whole hashes, then too little room.
pub fn offer(hashes: &[u8], out: &mut [u8], at: usize) -> Result<usize, Refusal>
    ensures { write result out.new ≡ hashes_call offers_of hashes.now at out.old }
{
    hashes_as(Kind::Offer, hashes, out, at)
}

// DEMAND messages, likewise.
pub fn demand(hashes: &[u8], out: &mut [u8], at: usize) -> Result<usize, Refusal>
    ensures { write result out.new ≡ hashes_call demands_of hashes.now at out.old }
{
    hashes_as(Kind::Demand, hashes, out, at)
}

// One ELEMENT. Refused: too little room, then a content that no message can hold.
#[tactic(auto, using(crate::proofs::SizeLaws::element_bytes), unfolding(crate::specs::Writing::element_call, crate::specs::Writing::wrote, crate::specs::Writing::have_room))]
pub fn element(content: &[u8], out: &mut [u8], at: usize) -> Result<usize, Refusal>
    ensures { write result out.new ≡ element_call content.now at out.old }
{
    let n = content.len();
    let end = room_for(at, 4 + n, out.len())?;
    if n < 1 || MOST_CONTENT < n {
        return Err(Refusal::Malformed);
    }
    crate::frames::put_framed(Kind::Element, content, out, at);
    Ok(end)
}

// One DONE with the checksum in the first 64 bytes of check. Refused: fewer bytes, or too little room.
#[tactic(auto, using(crate::proofs::SizeLaws::done_bytes), unfolding(crate::specs::Writing::done_call, crate::specs::Writing::wrote, crate::specs::Writing::have_room))]
pub fn done(check: &[u8], out: &mut [u8], at: usize) -> Result<usize, Refusal>
    ensures { write result out.new ≡ done_call check.now at out.old }
{
    if check.len() < 64 {
        return Err(Refusal::Room);
    }
    let end = room_for(at, 68, out.len())?;
    crate::frames::put_framed(Kind::Done, &check[..64], out, at);
    Ok(end)
}

// Messages of a type for hashes, whatever they say by it.
fn hashes_as(kind: Kind, hashes: &[u8], out: &mut [u8], at: usize) -> Result<usize, Refusal>
    ensures { (say : List ℕ → Content) → Says (type_of kind) say → write result out.new ≡ hashes_call (λ hs. map say (pieces 1023 hs)) hashes.now at out.old }
{
    if hashes.len() % 64 != 0 {
        return Err(Refusal::Form);
    }
    let end = room_for(at, hashes_bytes(hashes.len() / 64), out.len())?;
    crate::lists::put_offers(hashes, kind, out, at);
    Ok(end)
}

// Where n bytes from a position on end, if that is within the room.
pub(crate) fn room_for(at: usize, n: usize, room: usize) -> Result<usize, Refusal>
    ensures { result ≡ cond (leb (at + n) room) (Ok (at + n)) (Err Room) }
{
    match at.checked_add(n) {
        Some(end) if end <= room => Ok(end),
        _ => Err(Refusal::Room),
    }
}

// The bytes of n hashes in OFFER or DEMAND messages.
fn hashes_bytes(n: usize) -> usize
    requires { n ≤ 2 ^ 57 }
    ensures { result ≡ cut_bytes 1023 4 64 n }
{
    4 * n.div_ceil(1023) + 64 * n
}
