// The numbers after a swap.
ghost use Rattle.std.specs.Prelude.{◌≡◌, ◌≤◌, ◌<◌};
ghost use Rattle.ledger.specs.Session.{next_size, next_salt};
ghost use Rattle.session.specs.Turns.{swapped_numbers};

use ledger::numbers::{Numbers, PASSIVE};

// Own filter due at salt + 1 (63 goes to 0) and twice the size, at most 4,096.
pub(crate) fn swapped(numbers: Numbers, size: u32, salt: u32) -> Numbers
    requires { (size ≤ 4096) × (salt < 64) × (numbers.swaps < 16) }
    ensures { result ≡ swapped_numbers numbers size salt }
{
    Numbers {
        state: PASSIVE,
        first: 1,
        size: next_size(size),
        salt: next_salt(salt),
        width: 0,
        swaps: numbers.swaps + 1,
        ..numbers
    }
}

fn next_size(size: u32) -> u32
    requires { size ≤ 4096 }
    ensures { result ≡ next_size size }
{
    (2 * size).min(4096)
}

fn next_salt(salt: u32) -> u32
    requires { salt < 64 }
    ensures { result ≡ next_salt salt }
{
    if salt == 63 { 0 } else { salt + 1 }
}
