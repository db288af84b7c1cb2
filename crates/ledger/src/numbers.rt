// The numbers of a session, lent and handed back by value; what a call answers; and the numbers of document 01 by name.
// The states (document 01, "The session"; 4 is none, document 02, Req 04).
pub const EXPECTING: u32 = 0;

pub const EXPECTING_LAST: u32 = 1;

pub const ACTIVE: u32 = 2;

pub const PASSIVE: u32 = 3;

pub const WAITING: u32 = 5;

pub const FINISHED: u32 = 6;

pub const ABORTED: u32 = 7;

// What a caller keeps of a session beside its memory.
#[repr(C)]
#[derive(Clone, Copy)]
pub struct Numbers {
    // a number, since C may hand in any: `form::grid::State` is the enum, read by `TryFrom<u32>`
    pub state: u32,
    // 1 from the entry to Passive Decoding until a message has come
    pub first: u32,
    // of the last filter sent or received
    pub size: u32,
    pub salt: u32,
    // of the slice laid
    pub width: u32,
    pub swaps: u32,
    // 1 when our DONE went
    pub done: u32,
    // how many hashes were demanded, and how many IDs inquired
    pub demanded: u32,
    pub inquired: u32,
}

// What a call answers: the refusal's number, 0 for none (C reads it: `filter::answers::Refusal` is the enum), how many bytes of messages were written,
// how many bare hashes, and the session's numbers now.
#[repr(C)]
#[derive(Clone, Copy)]
pub struct Answer {
    pub refusal: u32,
    pub sent: usize,
    pub due: usize,
    pub next: Numbers,
}
