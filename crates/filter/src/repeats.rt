// IDs noted as they are listed: was one noted already? Each value of the low 12 bits has a tree that branches by the further bits, the lower
// first. So a search looks at 53 numbers at most, whatever the far end sends; where it is honest, at one or two.
ghost use Rattle.std.specs.Prelude.{◌≡◌, not, cond, [], ◌∷◌, ◌++◌, ◌<◌, ◌≤◌, ◌%◌, length};
ghost use Rattle.bucket.specs.Lists.{elem};
ghost use Rattle.filter.specs.Repeats.{Forest, Root, Placed};

use std::marker::Model;

// The first n numbers of seen are noted. Heads and links count them from 1, and 0 leads to none. What an earlier peeling left in the
// arrays counts as none.
#[derive(Drop)]
pub(crate) struct Trees {
    heads: [u16; 4096],
    links: [u16; 8192],
    seen: [u64; 4096],
    n: usize,
}

// Clauses see the numbers noted, in order.
impl Model for Trees {
    ghost use Rattle.std.specs.Prelude.{List, ℕ, ◌≤◌, take};
    ghost use Rattle.filter.specs.Repeats.{Forest};

    ghost Value = { List ℕ };

    ghost view = { λ t. take t.n t.seen };

    ghost invariant = { λ t. (t.n ≤ 4096) × Forest t.heads t.links (take t.n t.seen) };
}

impl Trees {
    // None is noted. Inlined, so that 56 KB are made in place and not copied.
    #[inline(always)]
    pub(crate) fn new() -> Trees
        ensures { result ≡ [] }
    {
        Trees {
            heads: [0; 4096],
            links: [0; 8192],
            seen: [0; 4096],
            n: 0,
        }
    }

    // Forgets all, in constant time.
    pub(crate) fn clear(&mut self)
        ensures { self.new ≡ [] }
    {
        self.n = 0;
    }

    // How many are noted.
    pub(crate) fn len(&self) -> usize
        ensures { result ≡ length self.now }
    {
        self.n
    }

    // Notes v, unless it was noted before.
    pub(crate) fn enroll(&mut self, v: u64) -> bool
        requires { length self.old < 4096 }
        ensures fresh { result ≡ not (elem v self.old) }
        ensures noted { self.new ≡ cond result (self.old ++ v ∷ []) self.old }
    {
        let n = self.n;
        match find(&self.heads, &self.links, &self.seen[..n], v) {
            Place::Noted => return false,
            Place::Head => self.heads[(v % 4096) as usize] = (n + 1) as u16,
            Place::Link(at) => self.links[at] = (n + 1) as u16,
        }
        // Nothing stands below the new number; an earlier peeling may have left links there.
        self.links[2 * n] = 0;
        self.links[2 * n + 1] = 0;
        self.seen[n] = v;
        self.n += 1;
        true
    }
}

// What the search for a number ends at: that number, or the empty place where it belongs.
#[derive(Drop)]
enum Place {
    Noted,
    Head,
    Link(usize),
}

// One walk both finds a repeat and tells where a new number goes.
fn find(heads: &[u16; 4096], links: &[u16; 8192], seen: &[u64], v: u64) -> Place
    requires few { length seen.now ≤ 4096 }
    requires forest { Forest heads.now links.now seen.now }
    ensures { Placed v heads.now links.now seen.now result }
{
    let Some(mut k) = root(heads, seen, v) else {
        return Place::Head;
    };
    let mut w = v / 4096;
    while seen[k] != v {
        let at = 2 * k + (w % 2) as usize;
        let Some(next) = usize::from(links[at]).checked_sub(1) else {
            return Place::Link(at);
        };
        k = next;
        w /= 2;
    }
    Place::Noted
}

// The first number noted of those with v's low bits. What is left in heads from before is told by the number that it names.
fn root(heads: &[u16; 4096], seen: &[u64], v: u64) -> Option<usize>
    ensures { Root heads.now seen.now (v % 4096) result }
{
    let p = usize::from(heads[(v % 4096) as usize]).checked_sub(1)?;
    let first = *seen.get(p)?;
    if first % 4096 == v % 4096 {
        Some(p)
    } else {
        None
    }
}
