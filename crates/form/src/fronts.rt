// What is judged beside the ledger: the table, the numbers, and in state 1 the counts laid.
ghost use Rattle.std.specs.Prelude.{◌≡◌};
ghost use Rattle.form.specs.Tallies.{numbers_fit, front_by};

use ledger::numbers::{EXPECTING_LAST, Numbers};

#[tactic(auto, unfolding(crate::specs::Tallies::front_by))]
pub(crate) fn is_good_front(numbers: Numbers, table: &[u8], counts: &[i64]) -> bool
    ensures { result ≡ front_by numbers table.now counts.now }
{
    filter::table::is_table(table)
        && are_numbers(numbers)
        && (numbers.state != EXPECTING_LAST || filter::forms::are_counts(counts, 2520))
}

// Ranges, and that an idle session counts nothing.
#[tactic(auto, unfolding(crate::specs::Tallies::numbers_fit, ledger::specs::Calls::counts_nothing))]
fn are_numbers(n: Numbers) -> bool
    ensures { result ≡ numbers_fit n }
{
    let idle = crate::tallying::is_idle(n.state, n.first);
    n.first <= 1
        && n.done <= 1
        && n.demanded <= 4096
        && n.inquired <= 4096
        && crate::grid::is_state(n.state)
        && n.swaps <= 16
        && filter::forms::in_range(n.size, n.salt)
        && (!idle || (n.demanded == 0 && n.inquired == 0 && n.done == 0))
}
