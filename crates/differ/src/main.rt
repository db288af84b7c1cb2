// Reads two tables and a size from standard input, and prints what one holds that the other lacks (document 01, "Numbers to check").
#![tactic(auto)]

mod report;
mod text;

ghost use Rattle.std.specs.Io.{ReadsAtMost};

use std::io::{Read, Result, Stdin, Write};

fn main(rt: HostRuntime) -> Result<()> {
    // The longest good input is 6 + 64 × 1,000 bytes; one byte more shows that bytes are left over.
    let mut input = [0u8; 64007];
    let mut out = [0u8; report::ROOM];
    let n = read_full(&mut rt.stdin(), &mut input)?;
    let r = report::report(&input[..n], &mut out);
    rt.stdout().write_all(&out[..r])
}

// Reads until buf is full or the input ends, and answers how many bytes it put at the start of buf.
fn read_full(from: &mut Stdin, buf: &mut [u8]) -> Result<usize>
    ensures { ReadsAtMost result buf.new }
{
    let mut done = 0;
    while done < buf.len() {
        let n = from.read(&mut buf[done..])?;
        if n == 0 {
            break;
        }
        done += n;
    }
    Ok(done)
}
