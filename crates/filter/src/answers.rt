// What calls answer, as enums. The definitions of specs/Answers give document 01's number and values for each case.
ghost use Rattle.std.specs.Prelude.{◌≡◌};
ghost use Rattle.std.specs.Result.{result_err};
ghost use Rattle.filter.specs.Answers.{refusal_number, number_of, refusal_of, answer, answer_of, estimate, made_answer, estimate_answer};

// Why a call is refused (document 01, "Refusal numbers"), for every layer.
#[derive(Clone, Copy, Debug, PartialEq, Eq)]
pub enum Refusal {
    // 1: a table, column, state or ledger breaks its form
    Form,
    // 2: a lent buffer is too short
    Room,
    // 3: a size or salt given by the caller is outside its range
    Range,
    // 4: a message is malformed
    Malformed,
    // 5: a message is not in the grid, or DONE came too early
    OutOfTurn,
    // 6: a filter's reading is false
    FalseReading,
    // 7: a message breaks a rule on inquiries, offers, demands or elements
    Breach,
    // 8: checksums differ
    Checksum,
    // 9: a 17th swap
    Swaps,
    // 10: elements held and wanted would pass 4,096
    Limit,
}

// How a peeling ends.
#[derive(Clone, Copy, Debug, PartialEq, Eq)]
pub enum Verdict {
    // all three columns are zero, and the listed IDs agree with the table
    Complete,
    // no bucket looks pure, and something is not zero
    Stuck,
    // a repeated ID, a peel too many, or a listed ID that the table contradicts
    False,
}

// What a reading found: whether it is complete or stuck, the lengths of the two lists, and the number of buckets looked at, as if each look began at
// bucket 0 (document 02, Req 11).
#[derive(Clone, Copy, Debug, PartialEq, Eq)]
pub struct Reading {
    pub complete: bool,
    pub ours: usize,
    pub theirs: usize,
    pub looked: usize,
}

// Why a reading call found nothing.
#[derive(Clone, Copy, Debug, PartialEq, Eq)]
pub enum Unread {
    // the table is none, or a COUNT is out of range
    Form,
    // the size or the salt is out of range
    Range,
    // a column or list is too short
    Room,
    // the reading is false: it too has the number of buckets looked at
    Untrue { looked: usize },
}

// A reading call's answer in numbers: the refusal's, 1 for complete, how many IDs are listed as ours and as theirs, and how many buckets were looked at.
#[repr(C)]
#[derive(Drop)]
pub struct ReadAnswer {
    pub refusal: u32,
    pub complete: u32,
    pub ours: usize,
    pub theirs: usize,
    pub looked: usize,
}

// How many IDs differ, or that nothing is known of it: "an answer of its own and never .. a number" (document 02, Req 02).
#[derive(Clone, Copy, Debug, PartialEq, Eq)]
pub enum Estimate {
    Known(u64),
    Unknown,
}

// An estimating call's answer in numbers: the refusal's, 1 for known, and the estimate, 0 where there is none.
#[repr(C)]
#[derive(Drop)]
pub struct EstimateAnswer {
    pub refusal: u32,
    pub known: u32,
    pub estimate: u64,
}

impl From<Refusal> for u32 {
    ghost from_gives = { λ why n. n ≡ refusal_number why };

    fn from(why: Refusal) -> u32 {
        match why {
            Refusal::Form => 1,
            Refusal::Room => 2,
            Refusal::Range => 3,
            Refusal::Malformed => 4,
            Refusal::OutOfTurn => 5,
            Refusal::FalseReading => 6,
            Refusal::Breach => 7,
            Refusal::Checksum => 8,
            Refusal::Swaps => 9,
            Refusal::Limit => 10,
        }
    }
}

impl From<Unread> for Refusal {
    ghost from_gives = { λ unread why. why ≡ refusal_of unread };

    fn from(unread: Unread) -> Refusal {
        match unread {
            Unread::Form => Refusal::Form,
            Unread::Range => Refusal::Range,
            Unread::Room => Refusal::Room,
            Unread::Untrue { .. } => Refusal::FalseReading,
        }
    }
}

impl From<Result<Reading, Unread>> for ReadAnswer {
    ghost from_gives = { λ reading numbers. numbers ≡ answer_of reading };

    fn from(reading: Result<Reading, Unread>) -> ReadAnswer {
        match reading {
            Ok(found) => ReadAnswer {
                refusal: 0,
                complete: u32::from(found.complete),
                ours: found.ours,
                theirs: found.theirs,
                looked: found.looked,
            },
            Err(Unread::Untrue { looked }) => nothing_read(Refusal::FalseReading, looked),
            Err(unread) => nothing_read(Refusal::from(unread), 0),
        }
    }
}

fn nothing_read(why: Refusal, looked: usize) -> ReadAnswer
    ensures { result ≡ answer (refusal_number why) 0 0 0 looked }
{
    ReadAnswer {
        refusal: u32::from(why),
        complete: 0,
        ours: 0,
        theirs: 0,
        looked,
    }
}

impl From<Result<Estimate, Refusal>> for EstimateAnswer {
    ghost from_gives = { λ made numbers. numbers ≡ estimate_answer made };

    fn from(made: Result<Estimate, Refusal>) -> EstimateAnswer {
        match made {
            Ok(estimate) => made_numbers(estimate),
            Err(why) => estimate_with(u32::from(why), 0, 0),
        }
    }
}

fn made_numbers(estimate: Estimate) -> EstimateAnswer
    ensures { result ≡ made_answer estimate }
{
    let Estimate::Known(number) = estimate else {
        return estimate_with(0, 0, 0);
    };
    estimate_with(0, 1, number)
}

fn estimate_with(refusal: u32, known: u32, number: u64) -> EstimateAnswer
    ensures { result ≡ estimate refusal known number }
{
    EstimateAnswer {
        refusal,
        known,
        estimate: number,
    }
}

// The number of the refusal of a call that answers nothing else, 0 for none.
pub fn number(answer: Result<(), Refusal>) -> u32
    ensures { result ≡ number_of (result_err answer) }
{
    match answer {
        Ok(()) => 0,
        Err(why) => u32::from(why),
    }
}
