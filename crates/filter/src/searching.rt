// A binary search by a question asked of positions, and of IDs.
ghost use Rattle.std.specs.Prelude.{◌≡◌, Bool, ℕ, ◌<◌};
ghost use Rattle.filter.specs.Lists.{bisect};
ghost use Rattle.filter.specs.Table.{position};

// Where a binary search for an ID ends: in ascending IDs, the first that is not below it. `table::id_position` asks the same of a table's bytes.
pub fn place_of_id(ids: &[u64], id: u64) -> usize
    ensures { result ≡ position ids.now id }
{
    bisect(ids.len(), |i| ids[i] < id)
}

// Where a binary search among n positions ends: the first that is not below, if those below come before all others.
// The library's `partition_point` says where it ends on such positions only; our contracts say where a search ends on any bytes.
pub(crate) fn bisect<F: Fn(usize) -> bool>(n: usize, below: F) -> usize
    requires { (i : ℕ) → i < n → F.pre below i }
    ensures { (p : ℕ → Bool) → ((i : ℕ) (t : Bool) → i < n → F.post below i t → t ≡ p i) → result ≡ bisect p n 0 n }
{
    let mut lo = 0;
    let mut hi = n;
    while lo < hi {
        let m = lo + (hi - lo) / 2;
        if below(m) {
            lo = m + 1;
        } else {
            hi = m;
        }
    }
    lo
}
