// A table's elements added to three columns: our filter is made in cleared columns, and the difference over received ones. An estimator's
// strata stand one behind the other, and a filter is a single stratum: one loop serves both.
ghost use Rattle.std.specs.Prelude.{◌≡◌, true, ◌≤◌, ◌*◌, ◌/◌, ◌^◌, min, pos, length};
ghost use Rattle.bucket.specs.Bucket.{bucket, ◌⊕◌};
ghost use Rattle.bucket.specs.Columns.{columns, view, place, is_open};
ghost use Rattle.bucket.specs.Counts.{stratum_of};
ghost use Rattle.bucket.specs.Crc.{crc_of, crc_tables};
ghost use Rattle.bucket.specs.Places.{places};
ghost use Rattle.filter.specs.Table.{first_eight, ids_of};
ghost use Rattle.filter.specs.Filter.{filter_of};
ghost use Rattle.filter.specs.Calls.{filled};
ghost use Rattle.filter.specs.Steps.{Wide, Small, Sound, spread, layered};

// Adds a table's elements, with k places each, to strata of size buckets, numbered 0 to top.
pub(crate) fn add_table(
    tab: &[u32; 2048],
    table: &[u8],
    ids: &mut [u64],
    hashes: &mut [u32],
    counts: &mut [i64],
    size: u32,
    salt: u32,
    k: usize,
    top: u32,
)
    requires { (tab.now ≡ crc_tables) × Sound size k salt × (top ≤ 31) × (length table.now / 64 ≤ 4096)
        × Wide (layered top k size salt).size (columns ids.old hashes.old counts.old)
        × Small (layered top k size salt).size (2 ^ 33) (columns ids.old hashes.old counts.old) }
    ensures { columns ids.new hashes.new counts.new
        ≡ filled (layered top k size salt).size
        (λ i. view (columns ids.old hashes.old counts.old) i ⊕ filter_of (layered top k size salt) (ids_of first_eight table.now) i)
        (columns ids.old hashes.old counts.old) }
{
    for e in 0..crate::table::count(table) {
        let id = crate::table::element_id(table, e);
        let x = bucket::salting::salt(id, salt);
        add_element(tab, ids, hashes, counts, x, size, k, top);
    }
}

// Adds one element of ours, given by its salted ID, to its buckets, all of one stratum.
fn add_element(
    tab: &[u32; 2048],
    ids: &mut [u64],
    hashes: &mut [u32],
    counts: &mut [i64],
    x: u64,
    size: u32,
    k: usize,
    top: u32,
)
    requires { (tab.now ≡ crc_tables) × Sound size k 0 × (top ≤ 31)
        × Wide (layered top k size 0).size (columns ids.old hashes.old counts.old)
        × Small (layered top k size 0).size (2 ^ 60) (columns ids.old hashes.old counts.old) }
    ensures { columns ids.new hashes.new counts.new
        ≡ filled (layered top k size 0).size
        (spread ((layered top k size 0).places x) (bucket x (crc_of x) (pos 1)) (view (columns ids.old hashes.old counts.old)))
        (columns ids.old hashes.old counts.old) }
{
    let h = bucket::crc::crc_by(tab, x);
    let a = start(x, size, top);
    let e = a + size as usize;
    add_to_places(
        tab,
        &mut ids[a..e],
        &mut hashes[a..e],
        &mut counts[a..e],
        x,
        h,
        size,
        k,
    );
}

// Where the stratum of a salted ID begins.
fn start(x: u64, size: u32, top: u32) -> usize
    requires { (size ≤ 4096) × (top ≤ 31) }
    ensures { result ≡ size * min top (stratum_of x) }
{
    let s = bucket::counts::stratum(x).min(top);
    (size as usize) * (s as usize)
}

// Adds one element of ours to all its buckets.
fn add_to_places(
    tab: &[u32; 2048],
    ids: &mut [u64],
    hashes: &mut [u32],
    counts: &mut [i64],
    x: u64,
    h: u32,
    size: u32,
    k: usize,
)
    requires { (tab.now ≡ crc_tables) × Sound size k 0 × Wide size (columns ids.old hashes.old counts.old)
        × Small size (2 ^ 60) (columns ids.old hashes.old counts.old) }
    ensures { columns ids.new hashes.new counts.new
        ≡ filled size (spread (places k size h) (bucket x h (pos 1)) (view (columns ids.old hashes.old counts.old)))
        (columns ids.old hashes.old counts.old) }
{
    let p = bucket::places::places(tab, h, size, k);
    for b in &p[..k] {
        put_at(ids, hashes, counts, *b as usize, x, h, 1);
    }
}

// Adds a bucket to bucket i, which is open to it: what add_at of `bucket` does, without its tests.
#[tactic(auto, using(bucket::proofs::ColumnLaws::is_open_inside))]
pub(crate) fn put_at(
    ids: &mut [u64],
    hashes: &mut [u32],
    counts: &mut [i64],
    i: usize,
    idsum: u64,
    hashsum: u32,
    count: i64,
)
    requires { is_open (columns ids.old hashes.old counts.old) i count ≡ true }
    ensures { columns ids.new hashes.new counts.new
        ≡ place (columns ids.old hashes.old counts.old) i
        (view (columns ids.old hashes.old counts.old) i ⊕ bucket idsum hashsum count) }
{
    ids[i] ^= idsum;
    hashes[i] ^= hashsum;
    counts[i] += count;
}
