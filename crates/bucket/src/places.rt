// The places of an element: its first distinct draws modulo the filter's size, drawn by lent CRC tables.
ghost use Rattle.std.specs.Prelude.{◌≡◌, ◌≤◌, min, length, take};
ghost use Rattle.bucket.specs.Crc.{tabulated, next_by};
ghost use Rattle.bucket.specs.Lists.{pad};
ghost use Rattle.bucket.specs.Places.{firsts, places_by, place_count};

// How many places an element has in a filter of a size.
pub fn place_count(size: u32) -> usize
    ensures { result ≡ place_count size }
{
    3
}

// The k places, at most four, that draw 0 leads to, in the order in which they are found, and zeros behind them.
// Fewer than k where the filter has fewer buckets. The search is left at the k-th place.
pub fn places(tab: &[u32; 2048], d: u32, size: u32, k: usize) -> [u32; 4]
    ensures { result ≡ pad 4 (places_by (next_by tab.now) (min 4 k) size d) }
{
    let most = k.min(4);
    let mut taken = [0u32; 4];
    if most == 0 || size == 0 {
        return taken;
    }
    let mut n: usize = 0;
    let mut e = d;
    'draws: for i in 0..64 {
        let c = e % size;
        'taken: {
            for p in &taken[..n] {
                if *p == c {
                    break 'taken;
                }
            }
            taken[n] = c;
            n += 1;
            if n == most {
                break 'draws;
            }
        }
        e = crate::crc::next_draw(tab, e, i);
    }
    if n < most {
        fill(&mut taken, n, size, most);
    }
    taken
}

// Where 64 draws lead to fewer than k places, the lowest bucket numbers not yet taken make up the k.
fn fill(taken: &mut [u32], found: usize, size: u32, k: usize)
    requires { (found ≤ k) × (k ≤ length taken.old) × (pad (length taken.old) (take found taken.old) ≡ taken.old) }
    ensures { taken.new
        ≡ pad (length taken.old) (firsts k (take found taken.old) (tabulated (λ c. c) 0 size)) }
{
    let mut n = found;
    for c in 0..size {
        if n == k {
            return;
        }
        if !taken[..n].iter().any(|t| *t == c) {
            taken[n] = c;
            n += 1;
        }
    }
}
