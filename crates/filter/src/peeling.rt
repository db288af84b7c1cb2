// Peeling: the lowest bucket that looks pure is listed and taken out of its places, again and again. The buckets that look pure
// are kept as a set, changed only where a peel touches, and repeated IDs are found in trees.
ghost use Rattle.std.specs.Prelude.{◌≡◌, false, List, ◌∷◌, ℕ, ◌<◌, ◌≤◌, ◌^◌, nat_abs, length, IsTrue};
ghost use Rattle.bucket.specs.Bucket.{bucket, neg, ◌⊕◌, is_one};
ghost use Rattle.bucket.specs.Columns.{columns, view, place};
ghost use Rattle.bucket.specs.Crc.{crc_tables};
ghost use Rattle.bucket.specs.Places.{places};
ghost use Rattle.filter.specs.Filter.{Item, rule};
ghost use Rattle.filter.specs.Peeling.{sided, reading, looked, is_pure};
ghost use Rattle.filter.specs.Calls.{filled};
ghost use Rattle.filter.specs.Marks.{marks};
ghost use Rattle.filter.specs.Steps.{Wide, Small, Sound, spread, shows, Listed, Peels};

use crate::marks::Marks;
use crate::repeats::Trees;

// How a peeling ended: how many IDs each list holds, or None where it was not in order; and how many buckets looks from bucket 0 would
// have gone over.
#[derive(Drop)]
pub(crate) struct Peeled {
    pub listed: Option<Lengths>,
    pub looked: usize,
}

#[derive(Drop)]
pub(crate) struct Lengths {
    pub ours: usize,
    pub theirs: usize,
}

// Peels the first size buckets, k places an element, and lists the IDs without their salt. The trees are lent to find repeats by, and may
// hold what an earlier peeling left there.
pub(crate) fn peel(
    tab: &[u32; 2048],
    ids: &mut [u64],
    hashes: &mut [u32],
    counts: &mut [i64],
    ours: &mut [u64],
    theirs: &mut [u64],
    trees: &mut Trees,
    size: u32,
    salt: u32,
    k: usize,
) -> Peeled
    requires tables { tab.now ≡ crc_tables }
    requires sound { Sound size k salt }
    requires wide { Wide size (columns ids.old hashes.old counts.old) }
    requires small { Small size (2 ^ 34) (columns ids.old hashes.old counts.old) }
    requires ours_room { size ≤ length ours.old }
    requires theirs_room { size ≤ length theirs.old }
    ensures peels { Peels size (reading (rule k size salt) (view (columns ids.old hashes.old counts.old)))
        (columns ids.old hashes.old counts.old) ours.old theirs.old result.listed
        (columns ids.new hashes.new counts.new) ours.new theirs.new }
    ensures looked { result.looked ≡ looked (rule k size salt) (view (columns ids.old hashes.old counts.old)) }
{
    let n = size as usize;
    let mut shown = Marks::new();
    survey(tab, ids, hashes, counts, &mut shown, size, k);
    trees.clear();
    let mut listed = Lengths { ours: 0, theirs: 0 };
    let mut looked: usize = 0;
    while let Some(b) = shown.least() {
        looked += b + 1;
        let x = ids[b];
        let h = hashes[b];
        let s = counts[b];
        let id = bucket::salting::unsalt(x, salt);
        // one peel more than there are buckets, or a repeated ID
        if trees.len() == n || !trees.enroll(id) {
            return Peeled {
                listed: None,
                looked,
            };
        }
        listed.enter(ours, theirs, id, s);
        take_out(tab, ids, hashes, counts, &mut shown, x, h, s, size, k);
    }
    // the look that finds nothing goes over all buckets
    looked += n;
    Peeled {
        listed: Some(listed),
        looked,
    }
}

// Marks the buckets that look pure, where none is marked.
fn survey(
    tab: &[u32; 2048],
    ids: &[u64],
    hashes: &[u32],
    counts: &[i64],
    shown: &mut Marks,
    size: u32,
    k: usize,
)
    requires tables { tab.now ≡ crc_tables }
    requires sound { Sound size k 0 }
    requires wide { Wide size (columns ids.now hashes.now counts.now) }
    requires none { shown.old ≡ marks (λ b. false) }
    ensures { shown.new ≡ marks (shows (rule k size 0) (view (columns ids.now hashes.now counts.now))) }
{
    for b in 0..size as usize {
        if looks_pure(tab, ids, hashes, counts, b, size, k) {
            shown.mark(b, true);
        }
    }
}

// Takes an element out of all its buckets.
fn take_out(
    tab: &[u32; 2048],
    ids: &mut [u64],
    hashes: &mut [u32],
    counts: &mut [i64],
    shown: &mut Marks,
    x: u64,
    h: u32,
    s: i64,
    size: u32,
    k: usize,
)
    requires tables { tab.now ≡ crc_tables }
    requires sound { Sound size k 0 }
    requires wide { Wide size (columns ids.old hashes.old counts.old) }
    requires small { Small size (2 ^ 60) (columns ids.old hashes.old counts.old) }
    requires one { nat_abs s ≤ 1 }
    requires shown { shown.old ≡ marks (shows (rule k size 0) (view (columns ids.old hashes.old counts.old))) }
    ensures taken { columns ids.new hashes.new counts.new
        ≡ filled size (spread (places k size h) (neg (bucket x h s)) (view (columns ids.old hashes.old counts.old)))
        (columns ids.old hashes.old counts.old) }
    ensures shown { shown.new ≡ marks (shows (rule k size 0) (view (columns ids.new hashes.new counts.new))) }
{
    let p = bucket::places::places(tab, h, size, k);
    for &b in &p[..k] {
        settle(
            tab, ids, hashes, counts, shown, b as usize, x, h, s, size, k,
        );
    }
}

// Takes an element out of one bucket, and notes whether that now looks pure.
fn settle(
    tab: &[u32; 2048],
    ids: &mut [u64],
    hashes: &mut [u32],
    counts: &mut [i64],
    shown: &mut Marks,
    b: usize,
    x: u64,
    h: u32,
    s: i64,
    size: u32,
    k: usize,
)
    requires tables { tab.now ≡ crc_tables }
    requires sound { Sound size k 0 }
    requires inside { b < size }
    requires wide { Wide size (columns ids.old hashes.old counts.old) }
    requires small { Small size (2 ^ 61) (columns ids.old hashes.old counts.old) }
    requires one { nat_abs s ≤ 1 }
    requires shown { shown.old ≡ marks (shows (rule k size 0) (view (columns ids.old hashes.old counts.old))) }
    ensures taken { columns ids.new hashes.new counts.new
        ≡ place (columns ids.old hashes.old counts.old) b
        (view (columns ids.old hashes.old counts.old) b ⊕ neg (bucket x h s)) }
    ensures shown { shown.new ≡ marks (shows (rule k size 0) (view (columns ids.new hashes.new counts.new))) }
{
    crate::adding::put_at(ids, hashes, counts, b, x, h, 0 - s);
    shown.mark(b, looks_pure(tab, ids, hashes, counts, b, size, k));
}

// Whether bucket b looks pure. Most counts are not one, which settles it without a call.
#[inline(always)]
fn looks_pure(
    tab: &[u32; 2048],
    ids: &[u64],
    hashes: &[u32],
    counts: &[i64],
    b: usize,
    size: u32,
    k: usize,
) -> bool
    requires tables { tab.now ≡ crc_tables }
    requires sound { Sound size k 0 }
    requires inside { b < size }
    requires wide { Wide size (columns ids.now hashes.now counts.now) }
    ensures { result ≡ is_pure (rule k size 0) b (view (columns ids.now hashes.now counts.now) b) }
{
    let s = counts[b];
    bucket::purity::is_one(s)
        && bucket::purity::looks_pure(tab, ids[b], hashes[b], s, b as u32, size, k)
}

impl Lengths {
    // Lists an ID on its side.
    fn enter(&mut self, ours: &mut [u64], theirs: &mut [u64], id: u64, s: i64)
        requires ours_room { self.old.ours < length ours.old }
        requires theirs_room { self.old.theirs < length theirs.old }
        requires one { IsTrue (is_one s) }
        ensures { (o₀ t₀ : List ℕ) (acc : List Item) → length ours.old ≡ length o₀ → length theirs.old ≡ length t₀
            → Listed o₀ t₀ acc ours.old theirs.old self.old.ours self.old.theirs
            → Listed o₀ t₀ (sided s id ∷ acc) ours.new theirs.new self.new.ours self.new.theirs }
    {
        if s == 1 {
            ours[self.ours] = id;
            self.ours += 1;
        } else {
            theirs[self.theirs] = id;
            self.theirs += 1;
        }
    }
}
