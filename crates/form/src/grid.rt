// The states by their numbers, and the grid: a constant of states against messages.
ghost use Rattle.std.specs.Prelude.{◌≡◌, true, is_ok};
ghost use Rattle.ledger.specs.Grid.{is_state, is_ended, entry};
ghost use Rattle.form.specs.Answers.{admits_slice, is_placed};
ghost use Rattle.form.specs.Grid.{column, IsStateOf};

use ledger::numbers::{
    ABORTED, ACTIVE, EXPECTING, EXPECTING_LAST, FINISHED, Numbers, PASSIVE, WAITING,
};
use message::kinds::Kind;

// The states, in the order of the grid's rows.
#[derive(Clone, Copy, PartialEq, Eq)]
pub enum State {
    Expecting,
    ExpectingLast,
    Active,
    Passive,
    Waiting,
    Finished,
    Aborted,
}

// A number that is no state's.
#[derive(Clone, Copy, PartialEq, Eq)]
pub struct NoState;

impl TryFrom<u32> for State {
    type Error = NoState;

    ghost try_from_gives = { IsStateOf };

    #[tactic(auto, unfolding(bucket::specs::Lists::elem))]
    fn try_from(number: u32) -> Result<State, NoState> {
        match number {
            EXPECTING => Ok(State::Expecting),
            EXPECTING_LAST => Ok(State::ExpectingLast),
            ACTIVE => Ok(State::Active),
            PASSIVE => Ok(State::Passive),
            WAITING => Ok(State::Waiting),
            FINISHED => Ok(State::Finished),
            ABORTED => Ok(State::Aborted),
            _ => Err(NoState),
        }
    }
}

// One row a state, one column a kind of message: IBF, IBF LAST, INQUIRY, OFFER, DEMAND, ELEMENT, DONE.
const GRID: [[bool; 7]; 7] = [
    [true, true, false, false, false, false, false], // 0 Expecting IBF
    [true, true, false, false, false, false, false], // 1 Expecting IBF Last
    [false, false, false, true, true, true, true], // 2 Active Decoding
    [true, true, true, true, true, true, true], // 3 Passive Decoding
    [false, false, false, false, false, true, false], // 5 Finish Waiting
    [false, false, false, false, false, false, false], // 6 Finished
    [false, false, false, false, false, false, false], // 7 Aborted
];

pub fn is_state(state: u32) -> bool
    ensures { result ≡ is_state state }
{
    State::try_from(state).is_ok()
}

pub fn is_ended(state: u32) -> bool
    ensures { result ≡ is_ended state }
{
    state == FINISHED || state == ABORTED
}

// The column of a kind of message.
pub fn column(kind: Kind) -> usize
    ensures { result ≡ column kind }
{
    kind as usize
}

// Whether a message may come in a state, by its kind's column. Outside the grid nothing may: the contract says so of any two numbers.
pub fn admits(state: u32, kind: usize) -> bool
    ensures { result ≡ entry state kind }
{
    let Ok(row) = State::try_from(state) else {
        return false;
    };
    if 7 <= kind {
        return false;
    }
    GRID[row as usize][kind]
}

// The same for a slice: in Passive Decoding only as first message since entry.
#[tactic(auto, unfolding(crate::specs::Answers::admits_slice))]
pub fn admits_slice(numbers: Numbers, kind: usize) -> bool
    ensures { result ≡ admits_slice numbers kind }
{
    admits(numbers.state, kind) && (numbers.state != PASSIVE || numbers.first == 1)
}

// Whether a slice comes in offset order without a gap, with one size, salt and width.
#[tactic(auto, unfolding(crate::specs::Answers::is_placed))]
pub fn is_placed(numbers: Numbers, size: u32, offset: u32, salt: u32, width: u32) -> bool
    ensures { result ≡ is_placed numbers size offset salt width }
{
    if numbers.state == EXPECTING_LAST {
        offset == 2520 && size == numbers.size && salt == numbers.salt && width == numbers.width
    } else {
        offset == 0
    }
}
