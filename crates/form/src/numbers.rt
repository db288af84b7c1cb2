// What a step answers, and how the numbers of a session go on.
ghost use Rattle.std.specs.Prelude.{◌≡◌};
ghost use Rattle.filter.specs.Answers.{refusal_number};
ghost use Rattle.ledger.specs.Calls.{answered, in_state};
ghost use Rattle.form.specs.Answers.{aborted, changed, sliced_numbers, opened_numbers};

use filter::answers::Refusal;
use ledger::numbers::{ABORTED, ACTIVE, Answer, EXPECTING_LAST, Numbers};

// A refusal that ends the session: nothing is sent.
pub fn abort(why: Refusal, numbers: Numbers) -> Answer
    ensures { result ≡ aborted (refusal_number why) numbers }
{
    aborted(u32::from(why), numbers)
}

// The same by its number.
pub fn aborted(refusal: u32, numbers: Numbers) -> Answer
    ensures { result ≡ aborted refusal numbers }
{
    refused(refusal, in_state(numbers, ABORTED))
}

// A refusal that changes nothing.
pub fn refuse(why: Refusal, numbers: Numbers) -> Answer
    ensures { result ≡ answered (refusal_number why) 0 0 numbers }
{
    refused(u32::from(why), numbers)
}

// The same by its number.
pub fn refused(refusal: u32, numbers: Numbers) -> Answer
    ensures { result ≡ answered refusal 0 0 numbers }
{
    Answer {
        refusal,
        sent: 0,
        due: 0,
        next: numbers,
    }
}

// A message was taken.
pub fn answered(sent: usize, due: usize, next: Numbers) -> Answer
    ensures { result ≡ answered 0 sent due next }
{
    Answer {
        refusal: 0,
        sent,
        due,
        next,
    }
}

fn in_state(numbers: Numbers, state: u32) -> Numbers
    ensures { result ≡ in_state state numbers }
{
    Numbers { state, ..numbers }
}

// A message that is no slice has been acted on.
pub fn changed(
    numbers: Numbers,
    state: u32,
    done: u32,
    demanded: u32,
    sent: usize,
    due: usize,
) -> Answer
    ensures { result ≡ changed numbers state done demanded sent due }
{
    let next = Numbers {
        state,
        first: 0,
        done,
        demanded,
        ..numbers
    };
    answered(sent, due, next)
}

pub fn sliced(numbers: Numbers, size: u32, salt: u32, width: u32) -> Numbers
    ensures { result ≡ sliced_numbers numbers size salt width }
{
    Numbers {
        state: EXPECTING_LAST,
        first: 0,
        size,
        salt,
        width,
        ..numbers
    }
}

pub fn opened(numbers: Numbers, size: u32, salt: u32, done: u32, inquired: u32) -> Numbers
    ensures { result ≡ opened_numbers numbers size salt done inquired }
{
    Numbers {
        state: ACTIVE,
        first: 0,
        size,
        salt,
        width: 0,
        done,
        inquired,
        ..numbers
    }
}
