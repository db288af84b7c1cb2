// What a message is, read into its kind and numbers; what a writer answers; and both as numbers for C.
ghost use Rattle.std.specs.Prelude.{◌≡◌};
ghost use Rattle.message.specs.Kinds.{kind_named, kind_of, slice_as, type_of};
ghost use Rattle.message.specs.Reading.{numbered, numbers_of};
ghost use Rattle.message.specs.Writing.{written_of};

use filter::answers::Refusal;

// MSG TYPE: the numbers registered in the GANA section of the set union draft (document 01, "Messages").
const DEMAND: u32 = 560;

const INQUIRY: u32 = 561;

const OFFER: u32 = 562;

const IBF: u32 = 565;

const ELEMENT: u32 = 566;

const IBF_LAST: u32 = 567;

const DONE: u32 = 568;

// The kinds of messages, in the order of the grid's columns.
#[derive(Clone, Copy, PartialEq, Eq)]
pub enum Kind {
    // a slice of a filter that does not reach its end
    Ibf,
    // the slice that reaches the end
    IbfLast,
    Inquiry,
    Offer,
    Demand,
    Element,
    Done,
}

// A number that is no kind's MSG TYPE.
#[derive(Clone, Copy, PartialEq, Eq)]
pub struct UnknownType(pub u32);

impl TryFrom<u32> for Kind {
    type Error = UnknownType;

    ghost try_from_gives = { λ number r. r ≡ kind_named number };

    fn try_from(number: u32) -> Result<Self, UnknownType> {
        match number {
            IBF => Ok(Kind::Ibf),
            IBF_LAST => Ok(Kind::IbfLast),
            INQUIRY => Ok(Kind::Inquiry),
            OFFER => Ok(Kind::Offer),
            DEMAND => Ok(Kind::Demand),
            ELEMENT => Ok(Kind::Element),
            DONE => Ok(Kind::Done),
            _ => Err(UnknownType(number)),
        }
    }
}

impl From<Kind> for u32 {
    ghost from_gives = { λ kind number. number ≡ type_of kind };

    fn from(kind: Kind) -> u32 {
        match kind {
            Kind::Ibf => IBF,
            Kind::IbfLast => IBF_LAST,
            Kind::Inquiry => INQUIRY,
            Kind::Offer => OFFER,
            Kind::Demand => DEMAND,
            Kind::Element => ELEMENT,
            Kind::Done => DONE,
        }
    }
}

// The numbers of a slice: those of its filter, its offset in it, the width of its counters, and how many buckets it has.
#[derive(Clone, Copy, PartialEq, Eq)]
pub struct Slice {
    pub size: u32,
    pub offset: u32,
    pub salt: u32,
    pub width: u32,
    pub count: usize,
}

// The kind and numbers of a message. Its items stay in the bytes and are read by number (items).
#[derive(Clone, Copy, PartialEq, Eq)]
pub enum Message {
    Ibf(Slice),
    IbfLast(Slice),
    Inquiry { salt: u32, count: usize },
    Offer { count: usize },
    Demand { count: usize },
    // an element's content
    Element { length: usize },
    Done,
}

impl Message {
    pub fn kind(self) -> Kind
        ensures { result ≡ kind_of self }
    {
        match self {
            Message::Ibf(_) => Kind::Ibf,
            Message::IbfLast(_) => Kind::IbfLast,
            Message::Inquiry { .. } => Kind::Inquiry,
            Message::Offer { .. } => Kind::Offer,
            Message::Demand { .. } => Kind::Demand,
            Message::Element { .. } => Kind::Element,
            Message::Done => Kind::Done,
        }
    }

    // The slice that the message is, if it is one.
    pub fn slice(self) -> Option<Slice>
        ensures { result ≡ slice_as self }
    {
        match self {
            Message::Ibf(slice) | Message::IbfLast(slice) => Some(slice),
            _ => None,
        }
    }
}

// A message as numbers: why it is refused, what it says, and its place in the buffer.
#[repr(C)]
#[derive(Drop)]
pub struct MessageNumbers {
    pub refusal: u32,
    pub kind: u32,
    pub size: u32,
    pub offset: u32,
    pub salt: u32,
    pub width: u32,
    pub count: usize,
    pub start: usize,
    pub next: usize,
}

// A writer's answer as numbers: why it wrote nothing, and the position behind what it wrote.
#[repr(C)]
#[derive(Drop)]
pub struct Written {
    pub refusal: u32,
    pub next: usize,
}

// A message from start up to next, or that there is none at start.
pub fn message_numbers(m: Option<Message>, start: usize, next: usize) -> MessageNumbers
    ensures { result ≡ numbers_of m start next }
{
    let Some(m) = m else {
        return MessageNumbers {
            refusal: u32::from(Refusal::Malformed),
            ..place(0, start, start)
        };
    };
    let found = place(u32::from(m.kind()), start, next);
    match m {
        Message::Ibf(slice) | Message::IbfLast(slice) => MessageNumbers {
            size: slice.size,
            offset: slice.offset,
            salt: slice.salt,
            width: slice.width,
            count: slice.count,
            ..found
        },
        Message::Inquiry { salt, count } => MessageNumbers {
            salt,
            count,
            ..found
        },
        Message::Offer { count } | Message::Demand { count } => MessageNumbers { count, ..found },
        Message::Element { length } => MessageNumbers {
            count: length,
            ..found
        },
        Message::Done => MessageNumbers { count: 1, ..found },
    }
}

// A kind's number and a place alone: nothing is refused, and nothing is counted.
pub(crate) fn place(kind: u32, start: usize, next: usize) -> MessageNumbers
    ensures { result ≡ numbered 0 kind 0 0 0 0 0 start next }
{
    MessageNumbers {
        refusal: 0,
        kind,
        size: 0,
        offset: 0,
        salt: 0,
        width: 0,
        count: 0,
        start,
        next,
    }
}

impl From<Result<usize, Refusal>> for Written {
    ghost from_gives = { λ wrote numbers. numbers ≡ written_of wrote };

    fn from(wrote: Result<usize, Refusal>) -> Written {
        match wrote {
            Ok(next) => Written { refusal: 0, next },
            Err(why) => Written {
                refusal: u32::from(why),
                next: 0,
            },
        }
    }
}
