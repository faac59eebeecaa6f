// The answers of the time order (added by document 01, "Time order"; no Rust file has it): the join's checks up to 7, the number of alive rows
// for 11, and 12.
#![tactic(auto)]

ghost use Rattle.std.specs.Prelude.{◌≡◌, ◌<◌, ◌≤◌, length};
ghost use Rattle.definitions.specs.Answer.{total};
ghost use Rattle.definitions.specs.TimeOrder.{time_of, time_answer};
ghost use Rattle.refusal.specs.Number.{answer_number};
ghost use Rattle.segment.specs.Records.{record_in, records_of};
ghost use Rattle.time_checks.specs.Times.{singles, times_rise, fits_times, times_from, HoldsTimes, alive_of};
ghost use Rattle.time_checks.specs.Lent.{times_in};

use refusal::Refusal;

// ---- 12

// A time as a number that keeps the order of two's complement.
pub fn time_of(word: u64) -> u64
    ensures { result ≡ time_of word }
{
    word.wrapping_add(1 << 63)
}

// Whether no time is below the one before it.
fn times_rise(values: &[u64]) -> bool
    ensures { result ≡ times_rise values.now }
{
    values.is_sorted_by_key(|&word| time_of(word))
}

// Whether no row has several values; offsets begin with 0.
fn single_values(offsets: &[u32]) -> bool
    ensures { result ≡ singles offsets.now }
{
    let mut last: u32 = 0;
    for &n in offsets {
        if n.saturating_sub(last) > 1 {
            return false;
        }
        last = n;
    }
    true
}

// Whether a segment has no column, or one of times that don't fall, at most one in a row; withdrawn rows count.
#[tactic(auto, unfolding(crate::specs::Times::fits_times))]
fn times_fit(r: segment::Record, offsets: &[u32], values: &[u64]) -> bool
    ensures { result ≡ fits_times (record_in r) offsets.now values.now }
{
    (r.typ == 255 || r.typ == 7) && single_values(offsets) && times_rise(values)
}

fn all_times_fit(records: &[segment::RecordNumbers], offsets: &[u32], values: &[u64]) -> bool
    requires { HoldsTimes (records_of records.now) offsets.now values.now }
    ensures { result ≡ times_from (records_of records.now) offsets.now values.now }
{
    let mut o: usize = 0;
    let mut v: usize = 0;
    for &numbers in records {
        let r = segment::Record::from(numbers);
        let o_end = o + r.offsets as usize;
        let v_end = v + segment::value_words(r);
        if !times_fit(r, &offsets[o..o_end], &values[v..v_end]) {
            return false;
        }
        o = o_end;
        v = v_end;
    }
    true
}

// ---- 11

// How many rows are alive: what the records say together. 6 has found each of them right.
fn all_alive(records: &[segment::RecordNumbers]) -> usize
    requires { length records.now ≤ 256 }
    ensures { result ≡ total alive_of (records_of records.now) }
{
    let mut n: usize = 0;
    for &numbers in records {
        n += segment::Record::from(numbers).alive as usize;
    }
    n
}

// ---- the answers

// The first of the checks up to 7, 11 and 12 that fails; the output has place for so many addresses.
pub fn answer(
    records: &[segment::RecordNumbers],
    sections: &segment::Sections,
    space: usize,
) -> Result<(), Refusal>
    ensures { answer_number result ≡ time_answer (times_in records.now sections.now space) }
{
    sections_fit::first_to_seven(1, 255, records, sections)?;
    if space < all_alive(records) {
        return Err(Refusal::OutputSpace);
    }
    if !all_times_fit(records, sections.offsets, sections.values) {
        return Err(Refusal::Times);
    }
    Ok(())
}
