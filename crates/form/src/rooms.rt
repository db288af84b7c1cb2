// What a step is refused with before its message is read.
ghost use Rattle.std.specs.Prelude.{◌≡◌, IfOk, Some, is_some};
ghost use Rattle.std.specs.Result.{result_err};
ghost use Rattle.filter.specs.Answers.{number_of};
ghost use Rattle.form.specs.Answers.{rooms_of, early_of};

use crate::tallying::Tally;
use filter::answers::Refusal;

// Refusal 2's test of its slices, by their lengths.
#[tactic(auto, unfolding(crate::specs::Answers::rooms_of))]
pub fn has_room(
    records: usize,
    marks: usize,
    inquired: usize,
    ids: usize,
    hashes: usize,
    counts: usize,
    ours: usize,
    theirs: usize,
    hash: usize,
    out: usize,
) -> bool
    ensures { result ≡ rooms_of records marks inquired ids hashes counts ours theirs hash out }
{
    262208 <= records
        && 8192 <= marks
        && 4096 <= inquired
        && 4096 <= ids
        && 4096 <= hashes
        && 4096 <= counts
        && 4096 <= ours
        && 4096 <= theirs
        && 64 <= hash
        && 295008 <= out
}

// Its form, then its rooms, then whether the session has ended; where none of them refuses it, the tally of its ledger.
#[tactic(auto, unfolding(crate::specs::Answers::early_of))]
pub fn admit(judged: Option<Tally>, roomy: bool, state: u32) -> Result<Tally, Refusal>
    ensures refused { number_of (result_err result) ≡ early_of (is_some judged) roomy state }
    ensures taken { IfOk result (λ tally. judged ≡ Some tally) }
{
    let tally = judged.ok_or(Refusal::Form)?;
    if !roomy {
        return Err(Refusal::Room);
    }
    if crate::grid::is_ended(state) {
        return Err(Refusal::OutOfTurn);
    }
    Ok(tally)
}
