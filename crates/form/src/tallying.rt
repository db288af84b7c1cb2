// The ledger's form, judged by counting: three merges of ascending IDs say everything that is shared.
ghost use Rattle.std.specs.Prelude.{◌≡◌, true, [], ◌-◌, ◌*◌, ◌≤◌, length, take, is_some};
ghost use Rattle.bucket.specs.Columns.{columns};
ghost use Rattle.filter.specs.Lists.{ascending};
ghost use Rattle.filter.specs.Table.{first_eight, hashes_of, is_table};
ghost use Rattle.ledger.specs.Calls.{given, good_form};
ghost use Rattle.form.specs.Tallies.{idle, counts_of, form_by, tally_by, tally_of, cut, tally_there, judged_by, Few};

use crate::judging::{all_fit, common, ids_into, is_record_mark, is_table_mark};
use ledger::numbers::{ACTIVE, EXPECTING, EXPECTING_LAST, Numbers, PASSIVE};

// What the messages of a session count on: how many IDs are held or wanted, how many inquired ones are held, and how many demands are unmet.
#[derive(Clone, Copy)]
pub struct Tally {
    pub concerned: usize,
    pub came: usize,
    pub unmet: usize,
}

// What a ledger counts, as far as it is there.
#[derive(Clone, Copy)]
pub(crate) struct Counts {
    pub(crate) elements: usize,
    pub(crate) demanded: usize,
    pub(crate) inquired: usize,
    // how many IDs of the demanded are the table's, of the inquired the table's, and of the demanded inquired
    pub(crate) both: usize,
    pub(crate) came: usize,
    pub(crate) wanted: usize,
    pub(crate) met: usize,
    // whether no element of the table has a mark
    pub(crate) unmarked: bool,
}

impl Counts {
    // The clauses of the form, on numbers alone.
    #[tactic(auto, unfolding(crate::specs::Tallies::form_by))]
    fn are_in_form(self, numbers: Numbers, whole: bool) -> bool
        requires { Few self }
        ensures { result ≡ form_by numbers self whole }
    {
        self.both == 0
            && self.elements + self.demanded + self.inquired <= 4096 + self.came + self.wanted
            && (self.unmarked || !is_idle(numbers.state, numbers.first))
            && (!whole
                || numbers.state != ACTIVE
                || (self.wanted == self.demanded
                    && (numbers.done == 1) == (self.came + self.met == self.inquired)))
    }

    fn tally(self) -> Tally
        requires { Few self }
        ensures { result ≡ tally_by self }
    {
        Tally {
            concerned: self.elements + self.demanded + self.inquired - self.came - self.wanted,
            came: self.came + self.met,
            unmet: self.demanded - self.met,
        }
    }
}

// Refusal 1's test of all that a step is given, and of a good form what the messages count on. The slices may have any length.
pub fn judge(
    numbers: Numbers,
    table: &[u8],
    records: &[u8],
    marks: &[u8],
    inquired: &[u64],
    counts: &[i64],
) -> Option<Tally>
    ensures { (is_some result ≡ good_form first_eight (given numbers table.now records.now marks.now inquired.now (columns [] [] counts.now) [] [] [] [] []))
        × (result ≡ judged_by numbers table.now records.now marks.now inquired.now counts.now) }
{
    if !crate::fronts::is_good_front(numbers, table, counts) {
        return None;
    }
    judge_ledger(numbers, table, records, marks, inquired)
}

// A ledger may be longer than its slices: it is judged as far as it is there.
fn judge_ledger(
    numbers: Numbers,
    table: &[u8],
    records: &[u8],
    marks: &[u8],
    inquired: &[u64],
) -> Option<Tally>
    requires { (is_table first_eight table.now ≡ true) × (numbers.demanded ≤ 4096) × (numbers.inquired ≤ 4096) }
    ensures { result ≡ tally_there numbers table.now records.now marks.now inquired.now }
{
    let part = there(numbers, records.len(), marks.len(), inquired.len());
    let whole = (part.demanded == numbers.demanded) & (part.inquired == numbers.inquired);
    let n = part.demanded as usize;
    let k = part.inquired as usize;
    let marked = filter::table::count(table).min(marks.len());
    let (_, flags) = marks.split_at(marks.len().min(4096));
    judge_part(
        part,
        whole,
        table,
        &records[..64 * n],
        &marks[..marked],
        &flags[..n],
        &inquired[..k],
    )
}

// The numbers with as much counted as is there; a demanded hash is there where its 64 bytes and its mark are.
fn there(numbers: Numbers, records: usize, marks: usize, inquired: usize) -> Numbers
    ensures { result ≡ cut numbers records marks inquired }
{
    let hashes = (records / 64).min(marks.saturating_sub(4096));
    let n = (numbers.demanded as usize).min(hashes);
    let k = (numbers.inquired as usize).min(inquired);
    Numbers {
        demanded: n as u32,
        inquired: k as u32,
        ..numbers
    }
}

// The hashes demanded that are there, the marks of the table's elements and of these hashes, and the IDs inquired. Of a part of a ledger what only the
// whole can show is not asked.
fn judge_part(
    numbers: Numbers,
    whole: bool,
    table: &[u8],
    known: &[u8],
    marks: &[u8],
    flags: &[u8],
    inquired: &[u64],
) -> Option<Tally>
    requires { (is_table first_eight table.now ≡ true) × (length inquired.now ≤ 4096) × (length flags.now ≡ length (hashes_of known.now)) }
    ensures { result ≡ tally_of numbers whole table.now known.now marks.now flags.now inquired.now }
{
    if !filter::table::is_table(known) {
        return None;
    }
    if !inquired.is_sorted_by(|a, b| a < b) {
        return None;
    }
    if !all_fit(marks, is_table_mark) {
        return None;
    }
    if !all_fit(flags, is_record_mark) {
        return None;
    }
    let counts = counted(table, known, marks, flags, inquired);
    if !counts.are_in_form(numbers, whole) {
        return None;
    }
    Some(counts.tally())
}

// The IDs of both sides are gathered once, and merged.
fn counted(table: &[u8], known: &[u8], marks: &[u8], flags: &[u8], inquired: &[u64]) -> Counts
    requires { (is_table first_eight table.now ≡ true) × (is_table first_eight known.now ≡ true) × (ascending inquired.now ≡ true) }
    ensures { result ≡ counts_of table.now known.now marks.now flags.now inquired.now }
{
    let mut ts = [0u64; 4096];
    let mut ks = [0u64; 4096];
    let ts = ids_into(table, &mut ts);
    let ks = ids_into(known, &mut ks);
    Counts {
        elements: ts.len(),
        demanded: ks.len(),
        inquired: inquired.len(),
        both: common(ks, ts),
        came: common(inquired, ts),
        wanted: common(ks, inquired),
        met: flags.iter().filter(|m| crate::marks::is_met(**m)).count(),
        unmarked: all_fit(marks, |m| m == 0),
    }
}

// In 0 and 1, and in 3 until its first message: nothing is counted, and no mark is set.
pub(crate) fn is_idle(state: u32, first: u32) -> bool
    ensures { result ≡ idle state first }
{
    state == EXPECTING || state == EXPECTING_LAST || (state == PASSIVE && first == 1)
}
