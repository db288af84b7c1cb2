// Outside vectors, run through the library. What it prints is held to the file `stdout`.
#![tactic(auto)]

use std::io::Result;

fn main(rt: HostRuntime) -> Result<()> {
    // CRC-32's check value, and the CRC of the number 0.
    let check = bucket::crc::crc_bytes(b"123456789");
    print!(rt; "crc-32 of \"123456789\": {check:08x}")?;
    let zeros = bucket::crc::crc(0);
    print!(rt; "\ncrc-32 of eight zero bytes: {zeros:08x}")?;
    // The draft's three series, as it shows them: the bits as one number, without the spare ones.
    print!(rt; "\ncounters 1 8 10 6 2 at width 4: ")?;
    show_packed(&rt, &[1i64, 8, 10, 6, 2], 4, 4)?;
    print!(rt; "\ncounters 26 17 19 15 2 8 at width 5: ")?;
    show_packed(&rt, &[26i64, 17, 19, 15, 2, 8], 5, 2)?;
    print!(rt; "\ncounters 4 2 0 1 3 at width 3: ")?;
    show_packed(&rt, &[4i64, 2, 0, 1, 3], 3, 1)?;
    // Places by document 01's rule: the element of its example, and the draft's five keys at its size.
    show_places(&rt, 0x0101_0101_0101_0101, 37)?;
    show_places(&rt, 0xFFFF_FFFF_FFFF_FFFF, 300)?;
    show_places(&rt, 0, 300)?;
    show_places(&rt, 0xFFFF_FFFF, 300)?;
    show_places(&rt, 0xC662_B629_8512_A22D, 300)?;
    show_places(&rt, 0xF20F_A7C0_AA05_85BE, 300)?;
    print!(rt; "\n")
}

// The counters packed, as one number without the spare bits.
fn show_packed(rt: &impl Print, counts: &[i64], w: u32, spare: u32) -> Result<()> {
    let mut out = [0u8; 8];
    let n = bucket::packing::pack(counts, w, &mut out, 0);
    let bits = bucket::bytes::number_at(&out, 0, n) >> (spare % 8);
    print!(rt; "{bits:x}")
}

fn show_places(rt: &impl Print, x: u64, size: u32) -> Result<()> {
    let tab = bucket::crc::tables();
    let p = bucket::places::places(
        &tab,
        bucket::crc::crc_by(&tab, x),
        size,
        bucket::places::place_count(size),
    );
    print!(rt; "\nplaces of {x:016x} at size {size}:")?;
    show_number(rt, p[0])?;
    show_number(rt, p[1])?;
    show_number(rt, p[2])
}

fn show_number(rt: &impl Print, x: u32) -> Result<()> {
    print!(rt; " {x}")
}
