// A small reader over lent bytes with its position (document 01, "Choosing the form by place": "One buffer may hold several messages end to end").
// `next` answers what stands there with the reader behind it. `message_at` and `walk` take a plain slice.
ghost use Rattle.std.specs.Prelude.{◌≡◌};
ghost use Rattle.message.specs.Walking.{walk_at, is_found, ended, whole_of, reader_at, next_of};

use crate::walking::{Broken, Found};

// The lent bytes with a position in them.
#[derive(Drop)]
pub struct Reader<'a> {
    pub src: &'a [u8],
    pub at: usize,
}

// What stands at a reader's position, and the reader behind it.
#[derive(Drop)]
pub struct Taken<'a> {
    pub walked: Option<Result<Found, Broken>>,
    pub rest: Reader<'a>,
}

// Where a walk stopped that did not come to the end: no message stands at start, and count messages before it.
#[derive(Clone, Copy, PartialEq, Eq)]
pub struct Stop {
    pub count: usize,
    pub start: usize,
}

impl<'a> Reader<'a> {
    pub fn new(src: &'a [u8], at: usize) -> Self
        ensures { result ≡ reader_at src.entry at }
    {
        Reader { src, at }
    }

    // The message at the reader's position. The reader stays there where none is.
    pub fn next(self) -> Taken<'a>
        ensures { result ≡ next_of self.entry }
    {
        let walked = crate::walking::walk_at(self.src, self.at);
        let at = match walked {
            Some(Ok(found)) => found.next,
            _ => self.at,
        };
        Taken {
            walked,
            rest: Reader { src: self.src, at },
        }
    }
}

// The message at a position of a buffer, by way of a reader there.
pub fn message_at(s: &[u8], at: usize) -> Option<Result<Found, Broken>>
    ensures { result ≡ walk_at s.now at }
{
    Reader::new(s, at).next().walked
}

// A whole buffer, message by message: how many there are.
pub fn walk(s: &[u8]) -> Result<usize, Stop>
    ensures { result ≡ whole_of s.now }
{
    let mut taken = Reader::new(s, 0).next();
    let mut count = 0;
    while is_found(taken.walked) {
        count += 1;
        taken = taken.rest.next();
    }
    ended(taken.walked, count)
}

// Whether a message was found.
#[tactic(auto, unfolding(crate::specs::Walking::is_found))]
fn is_found(walked: Option<Result<Found, Broken>>) -> bool
    ensures { result ≡ is_found walked }
{
    match walked {
        Some(Ok(_)) => true,
        Some(Err(_)) => false,
        None => false,
    }
}

// What a walk answers that is over, with count messages before it.
#[tactic(auto, unfolding(crate::specs::Walking::ended))]
fn ended(walked: Option<Result<Found, Broken>>, count: usize) -> Result<usize, Stop>
    ensures { result ≡ ended walked count }
{
    match walked {
        Some(Ok(Found { start, .. })) | Some(Err(Broken { start })) => Err(Stop { count, start }),
        None => Ok(count),
    }
}
