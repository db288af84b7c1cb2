// The set of buckets that look pure, as bits: 64 words, and a word that says which of them are not zero.
// The least number of the set is found by two counts of trailing zeros.
ghost use Rattle.std.specs.Prelude.{◌≡◌, false, ℕ, ◌<◌, set, position};
ghost use Rattle.filter.specs.Marks.{lit, but, marks};

use std::marker::Model;

#[derive(Drop)]
pub(crate) struct Marks {
    bits: [u64; 64],
    top: u64,
}

// Clauses see 4,096 marks, each on or off.
impl Model for Marks {
    ghost use Rattle.std.specs.Prelude.{List, Bool};
    ghost use Rattle.filter.specs.Marks.{marks, mark_in, Topped};

    ghost Value = { List Bool };

    ghost view = { λ m. marks (mark_in m.bits) };

    ghost invariant = { λ m. Topped m.bits m.top };
}

impl Marks {
    // All are off.
    pub(crate) fn new() -> Marks
        ensures { result ≡ marks (λ b. false) }
    {
        Marks {
            bits: [0; 64],
            top: 0,
        }
    }

    // Puts the mark b on or off.
    pub(crate) fn mark(&mut self, b: usize, on: bool)
        requires { b < 4096 }
        ensures { self.new ≡ set self.old b on }
    {
        let i = b / 64;
        let w = with_bit(self.bits[i], (b % 64) as u32, on);
        self.bits[i] = w;
        self.top = with_bit(self.top, i as u32, w != 0);
    }

    // The least that is on.
    pub(crate) fn least(&self) -> Option<usize>
        ensures { result ≡ position (λ on. on) self.now }
    {
        if self.top == 0 {
            return None;
        }
        let i = self.top.trailing_zeros() as usize;
        let j = self.bits[i].trailing_zeros() as usize;
        Some(i * 64 + j)
    }
}

// The word with bit j on or off.
fn with_bit(w: u64, j: u32, on: bool) -> u64
    requires { j < 64 }
    ensures { (i : ℕ) → i < 64 → lit result i ≡ but (lit w) j on i }
{
    if on { w | 1 << j } else { w & !(1 << j) }
}
