// The answer to one input, as text: two tables are compared by filters, as two peers would.
ghost use Rattle.std.specs.Prelude.{◌&&◌, ◌≡◌, ◌≤◌, ◌<◌, true, leb, length};
ghost use Rattle.bucket.specs.Digits.{joined};
ghost use Rattle.bucket.specs.Lists.{part};
ghost use Rattle.io.specs.Counts.{IsPrefixLen};
ghost use Rattle.differ.specs.Text.{Writes};
ghost use Rattle.filter.specs.Table.{first_eight, is_table};
ghost use Rattle.differ.specs.Report.{is_input, shown, our_reading, compared, Reports};

use filter::answers::Refusal;

// Room for a heading and 512 lines: as many IDs as there are buckets, at most, are listed.
pub const ROOM: usize = 16384;

// Writes what an input prints to the start of out, and answers how many bytes that is. Nothing where out is shorter than ROOM.
pub fn report(input: &[u8], out: &mut [u8]) -> usize
    ensures counted { IsPrefixLen result out.new }
    ensures reported { Reports input.now out.old result out.new }
{
    if out.len() < ROOM {
        return 0;
    }
    if !is_input(input) {
        return crate::text::put_refusal(out, 1);
    }
    let size = field(input, 0);
    let end = 6 + 64 * field(input, 2) as usize;
    compare(&input[6..end], &input[end..], size, out)
}

fn field(input: &[u8], at: usize) -> u32
    ensures { (result ≡ joined 8 (part at 2 input.now)) × (result < 65536) }
{
    bucket::bytes::number_at(input, at, 2) as u32
}

// Whether the counts are within the limit, and no byte is missing or left over.
fn is_input(input: &[u8]) -> bool
    ensures { result ≡ is_input input.now }
{
    let n = field(input, 2) as usize + field(input, 4) as usize;
    (n <= 1000) & (input.len() == 6 + 64 * n)
}

// Both tables are judged before the size.
fn compare(a: &[u8], b: &[u8], size: u32, out: &mut [u8]) -> usize
    requires { 16384 ≤ length out.old }
    ensures { Writes 0 (compared size a.now b.now) out.old result out.new }
{
    if !are_tables(a, b) {
        return crate::text::put_refusal(out, 1);
    }
    if !((37 <= size) & (size <= 512)) {
        return crate::text::put_refusal(out, 3);
    }
    show(a, b, size, out)
}

fn are_tables(a: &[u8], b: &[u8]) -> bool
    ensures { result ≡ (is_table first_eight a.now && is_table first_eight b.now) }
{
    filter::table::is_table(a) & filter::table::is_table(b)
}

// The received table's filter, then our reading of it. Behind the tests of compare only a false reading is refused.
fn show(a: &[u8], b: &[u8], size: u32, out: &mut [u8]) -> usize
    requires { (is_table first_eight a.now && is_table first_eight b.now ≡ true) × (leb 37 size && leb size 512 ≡ true) × (16384 ≤ length out.old) }
    ensures { Writes 0 (shown size (our_reading size a.now b.now)) out.old result out.new }
{
    let mut ids = [0u64; 512];
    let mut hashes = [0u32; 512];
    let mut counts = [0i64; 512];
    filter::building::build(b, &mut ids, &mut hashes, &mut counts, size, 0).unwrap();
    let mut ours = [0u64; 512];
    let mut theirs = [0u64; 512];
    match filter::reading::read(
        a,
        &mut ids,
        &mut hashes,
        &mut counts,
        &mut ours,
        &mut theirs,
        size,
        0,
    ) {
        Ok(found) => {
            let complete = u32::from(found.complete);
            let ours = &ours[..found.ours];
            let theirs = &theirs[..found.theirs];
            crate::text::put_listing(out, size, complete, ours, theirs)
        }
        Err(unread) => crate::text::put_refusal(out, u32::from(Refusal::from(unread))),
    }
}
