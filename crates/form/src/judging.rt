// Parts of the ledger's test: the IDs of hashes, what two lists of IDs share, and marks.
ghost use Rattle.std.specs.Prelude.{◌≡◌, Bool, true, ℕ, ◌≤◌, length};
ghost use Rattle.filter.specs.Lists.{ascending};
ghost use Rattle.filter.specs.Sets.{all};
ghost use Rattle.filter.specs.Table.{first_eight, hashes_of, ids_of};
ghost use Rattle.form.specs.Tallies.{table_mark, record_mark, common};

use crate::marks::{is_met, is_offered, is_served};

// The IDs of all hashes of a slice, in lent memory.
pub(crate) fn ids_into<'a>(hashes: &[u8], ids: &'a mut [u64]) -> &'a [u64]
    requires { length (hashes_of hashes.now) ≤ length ids.old }
    ensures { result.now ≡ ids_of first_eight hashes.now }
{
    let (ids, _) = ids.split_at_mut(filter::table::count(hashes));
    for (i, id) in ids.iter_mut().enumerate() {
        *id = filter::table::element_id(hashes, i);
    }
    ids
}

// How many of one ascending list stand in another. It is merged without branches, since which list is to go on is hard to foretell.
pub(crate) fn common(a: &[u64], b: &[u64]) -> usize
    requires { (ascending a.now ≡ true) × (ascending b.now ≡ true) }
    ensures { result ≡ common a.now b.now }
{
    let mut c = 0;
    let mut i = 0;
    let mut j = 0;
    while i < a.len() && j < b.len() {
        let x = a[i];
        let y = b[j];
        c += usize::from(x == y);
        i += usize::from(x <= y);
        j += usize::from(y <= x);
    }
    c
}

// Whether every mark fits. Each is looked at, with no early exit, so that many are at once.
pub(crate) fn all_fit<F: Fn(u8) -> bool>(marks: &[u8], fits: F) -> bool
    requires { F.IsAlwaysCallable fits }
    ensures { (p : ℕ → Bool) → ((m : ℕ) (b : Bool) → F.post fits m b → b ≡ p m) → result ≡ all p marks.now }
{
    let mut fit = true;
    for m in marks {
        fit &= fits(*m);
    }
    fit
}

#[tactic(auto, unfolding(crate::specs::Tallies::table_mark))]
pub(crate) fn is_table_mark(m: u8) -> bool
    ensures { result ≡ table_mark m }
{
    (m < 8) & !(is_served(m) & !is_offered(m))
}

#[tactic(auto, unfolding(crate::specs::Tallies::record_mark))]
pub(crate) fn is_record_mark(m: u8) -> bool
    ensures { result ≡ record_mark m }
{
    (m < 16) & (!(is_served(m) & !is_offered(m)) & (is_met(m) | (m == 0)))
}
