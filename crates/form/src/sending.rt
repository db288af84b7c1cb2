// A session's own filter.
ghost use Rattle.std.specs.Prelude.{◌≡◌};
ghost use Rattle.message.specs.Writing.{write};
ghost use Rattle.form.specs.Sending.{own_filter_into};

use filter::answers::Refusal;

// The filter of a table at a size and a salt, built in columns of its own and written from the start of a buffer: answers where its messages end.
// Refused: a buffer of fewer than 65,568 bytes, then a bad table, then a size or salt out of range; then the buffer stays.
#[tactic(auto, unfolding(crate::specs::Sending::own_filter_into, message::specs::Writing::wrote))]
pub fn send_filter(table: &[u8], size: u32, salt: u32, out: &mut [u8]) -> Result<usize, Refusal>
    ensures { write result out.new ≡ own_filter_into table.now size salt out.old }
{
    if out.len() < 65568 {
        return Err(Refusal::Room);
    }
    let mut ids = [0u64; 4096];
    let mut hashes = [0u32; 4096];
    let mut counts = [0i64; 4096];
    filter::building::build(table, &mut ids, &mut hashes, &mut counts, size, salt)?;
    message::filters::filter(&ids, &hashes, &counts, size, salt, out, 0)
}
