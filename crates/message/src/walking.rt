// A buffer of several messages end to end, walked message by message.
ghost use Rattle.std.specs.Prelude.{◌≡◌};
ghost use Rattle.message.specs.Walking.{walk_at, walk_numbers};

use crate::kinds::{Message, MessageNumbers};

// A message from start up to next.
#[derive(Clone, Copy, PartialEq, Eq)]
pub struct Found {
    pub message: Message,
    pub start: usize,
    pub next: usize,
}

// No message: it hands out no further position, so the walk ends here.
#[derive(Clone, Copy, PartialEq, Eq)]
pub struct Broken {
    pub start: usize,
}

// The message at a position of a buffer, or that none stands there; None is the end of the buffer.
#[tactic(auto, using(crate::proofs::WalkLaws::walk_broken), unfolding(crate::specs::Walking::walk_at))]
pub fn walk_at(s: &[u8], at: usize) -> Option<Result<Found, Broken>>
    ensures { result ≡ walk_at s.now at }
{
    if s.len() <= at {
        return None;
    }
    let size = bucket::bytes::number_at(s, at, 2) as usize;
    if s.len() - at < size {
        return Some(Err(Broken { start: at }));
    }
    let next = at + size;
    Some(match crate::reading::read(&s[at..next]) {
        Some(message) => Ok(Found {
            message,
            start: at,
            next,
        }),
        None => Err(Broken { start: at }),
    })
}

// The same as numbers, for C.
pub fn numbers_at(s: &[u8], at: usize) -> MessageNumbers
    ensures { result ≡ walk_numbers (walk_at s.now at) at }
{
    match crate::reader::message_at(s, at) {
        Some(Ok(found)) => {
            crate::kinds::message_numbers(Some(found.message), found.start, found.next)
        },
        Some(Err(Broken { start })) => crate::kinds::message_numbers(None, start, start),
        None => crate::kinds::place(1, at, at),
    }
}
