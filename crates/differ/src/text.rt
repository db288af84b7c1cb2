// What the program prints, written into lent memory. A writer takes the position at which its text begins, and answers the one behind it.
ghost use Rattle.std.specs.Prelude.{◌+◌, ◌≤◌, length};
ghost use Rattle.differ.specs.Text.{decimal, hex16, line, lines, heading, listing, refusal, Writes};

// The heading, then a line for each ID of ours, then one for each of theirs.
pub(crate) fn put_listing(
    out: &mut [u8],
    size: u32,
    complete: u32,
    ours: &[u64],
    theirs: &[u64],
) -> usize
    requires { length (listing size complete ours.now theirs.now) ≤ length out.old }
    ensures { Writes 0 (listing size complete ours.now theirs.now) out.old result out.new }
{
    let p = put_heading(out, size, complete);
    let q = put_lines(out, p, b"ours ", ours);
    put_lines(out, q, b"theirs ", theirs)
}

pub(crate) fn put_refusal(out: &mut [u8], n: u32) -> usize
    requires { length (refusal n) ≤ length out.old }
    ensures { Writes 0 (refusal n) out.old result out.new }
{
    let p = put_bytes(out, 0, b"refused ");
    let q = put_decimal(out, p, n);
    put_bytes(out, q, b"\n")
}

fn put_heading(out: &mut [u8], size: u32, complete: u32) -> usize
    requires { length (heading size complete) ≤ length out.old }
    ensures { Writes 0 (heading size complete) out.old result out.new }
{
    let p = put_bytes(out, 0, b"size ");
    let q = put_decimal(out, p, size);
    let s = put_bytes(out, q, b" salt 0 complete ");
    let t = put_decimal(out, s, complete);
    put_bytes(out, t, b"\n")
}

// A line for each ID.
fn put_lines(out: &mut [u8], at: usize, label: &[u8], ids: &[u64]) -> usize
    requires { at + length (lines label.now ids.now) ≤ length out.old }
    ensures { Writes at (lines label.now ids.now) out.old result out.new }
{
    let mut p = at;
    for id in ids {
        p = put_line(out, p, label, *id);
    }
    p
}

fn put_line(out: &mut [u8], at: usize, label: &[u8], id: u64) -> usize
    requires { at + length (line label.now id) ≤ length out.old }
    ensures { Writes at (line label.now id) out.old result out.new }
{
    let p = put_bytes(out, at, label);
    let q = put_hex(out, p, id);
    put_bytes(out, q, b"\n")
}

fn put_hex(out: &mut [u8], at: usize, x: u64) -> usize
    requires { at + 16 ≤ length out.old }
    ensures { Writes at (hex16 x) out.old result out.new }
{
    let mut text = [0u8; 16];
    let k = io::hex(x, 16, &mut text);
    put_bytes(out, at, &text[..k])
}

fn put_decimal(out: &mut [u8], at: usize, n: u32) -> usize
    requires { at + length (decimal n) ≤ length out.old }
    ensures { Writes at (decimal n) out.old result out.new }
{
    let mut text = [0u8; 20];
    let k = io::decimal(n as u64, &mut text);
    put_bytes(out, at, &text[..k])
}

fn put_bytes(out: &mut [u8], at: usize, text: &[u8]) -> usize
    requires { at + length text.now ≤ length out.old }
    ensures { Writes at text.now out.old result out.new }
{
    let end = at + text.len();
    out[at..end].copy_from_slice(text);
    end
}
