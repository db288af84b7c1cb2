// Messages written where there is room for them: each answers the position behind what it wrote.
// One function a writer, since each asks of its callers its own range and room: with these a writer is never refused.
ghost use Rattle.std.specs.Prelude.{◌≡◌, [], ◌∷◌, ◌+◌, ◌≤◌, ◌<◌, ◌%◌, length, take};
ghost use Rattle.bucket.specs.Digits.{joined};
ghost use Rattle.bucket.specs.Lists.{over};
ghost use Rattle.filter.specs.Table.{hashes_of};
ghost use Rattle.message.specs.Layout.{done};
ghost use Rattle.message.specs.Writing.{layouts, inquiries_of, offers_of, demands_of};

pub(crate) fn send_inquiries(ids: &[u64], salt: u32, out: &mut [u8], at: usize) -> usize
    requires { (salt < 64) × (at + length (layouts (inquiries_of salt ids.now)) ≤ length out.old) }
    ensures { (result ≡ at + length (layouts (inquiries_of salt ids.now))) × (out.new ≡ over at (layouts (inquiries_of salt ids.now)) out.old) }
{
    message::writing::inquiry(ids, salt, out, at).unwrap()
}

pub(crate) fn send_offers(hashes: &[u8], out: &mut [u8], at: usize) -> usize
    requires { (length hashes.now % 64 ≡ 0) × (at + length (layouts (offers_of (hashes_of hashes.now))) ≤ length out.old) }
    ensures { (result ≡ at + length (layouts (offers_of (hashes_of hashes.now)))) × (out.new ≡ over at (layouts (offers_of (hashes_of hashes.now))) out.old) }
{
    message::writing::offer(hashes, out, at).unwrap()
}

pub(crate) fn send_demands(hashes: &[u8], out: &mut [u8], at: usize) -> usize
    requires { (length hashes.now % 64 ≡ 0) × (at + length (layouts (demands_of (hashes_of hashes.now))) ≤ length out.old) }
    ensures { (result ≡ at + length (layouts (demands_of (hashes_of hashes.now)))) × (out.new ≡ over at (layouts (demands_of (hashes_of hashes.now))) out.old) }
{
    message::writing::demand(hashes, out, at).unwrap()
}

pub(crate) fn send_done(check: &[u8], out: &mut [u8], at: usize) -> usize
    requires { (64 ≤ length check.now) × (at + 68 ≤ length out.old) }
    ensures { (result ≡ at + length (layouts (done (joined 8 (take 64 check.now)) ∷ []))) × (out.new ≡ over at (layouts (done (joined 8 (take 64 check.now)) ∷ [])) out.old) }
{
    message::writing::done(check, out, at).unwrap()
}
