// The checks of all segments, in their order: each is one walk over the records and the sections that it reads, and `first_to_seven` gives the
// first of those up to 7 that fails (columnar/merge/mod.rs; asserts become answers).
#![tactic(auto)]

ghost use Rattle.std.specs.Prelude.{◌≡◌, [], ◌<◌, ◌≤◌, length};
ghost use Rattle.definitions.specs.Segment.{alive_words};
ghost use Rattle.definitions.specs.Checks.{first_of};
ghost use Rattle.definitions.specs.Answer.{total, checks_to_seven};
ghost use Rattle.segment.specs.Records.{record_in, records_of};
ghost use Rattle.segment.specs.Lent.{sections_of, input_in};
ghost use Rattle.refusal.specs.Number.{answer_number};
ghost use Rattle.sections_fit.specs.Walks.{totals_of, add_to, Below, Grown, lengths_right, codes_from, known_codes, none_old, HoldsLists, lists_from, HoldsValues, values_from, alive_fits_from, sums_right};

use refusal::Refusal;

// ---- sums

// The sums of the records' counts, and of the words that their values and alive sets have.
#[derive(Clone, Copy)]
pub struct Totals {
    pub rows: usize,
    pub ids: usize,
    pub offsets: usize,
    pub values: usize,
    pub words: usize,
    pub terms: usize,
    pub alive: usize,
}

// The sums with one record more.
fn plus(t: Totals, r: segment::Record) -> Totals
    requires { Below t 2199023255552 }
    ensures value { result ≡ add_to t (record_in r) }
    ensures grown { Grown t result }
{
    Totals {
        rows: t.rows + r.rows as usize,
        ids: t.ids + r.ids as usize,
        offsets: t.offsets + r.offsets as usize,
        values: t.values + r.values as usize,
        words: t.words + segment::value_words(r),
        terms: t.terms + r.terms as usize,
        alive: t.alive + segment::alive_words(r),
    }
}

// The sums over at most 256 records, which fit.
pub fn totals_of(records: &[segment::RecordNumbers]) -> Totals
    requires { length records.now ≤ 256 }
    ensures { result ≡ totals_of (records_of records.now) }
{
    let mut t = Totals {
        rows: 0,
        ids: 0,
        offsets: 0,
        values: 0,
        words: 0,
        terms: 0,
        alive: 0,
    };
    for &r in records {
        t = plus(t, segment::Record::from(r));
    }
    t
}

// ---- 2

#[tactic(auto, unfolding(crate::specs::Walks::lengths_right))]
fn lengths_fit(records: &[segment::RecordNumbers], sections: &segment::Sections) -> bool
    requires { length records.now ≤ 256 }
    ensures { result ≡ lengths_right (records_of records.now) (sections_of sections.now) }
{
    let t = totals_of(records);
    t.ids == sections.ids.len()
        && t.offsets == sections.offsets.len()
        && t.words == sections.values.len()
        && t.terms == sections.lengths.len()
        && runs::adds_up(sections.lengths, sections.bytes.len())
        && t.alive == sections.alive.len()
}

// ---- 3

fn all_codes_fit(records: &[segment::RecordNumbers]) -> bool
    ensures { result ≡ codes_from (records_of records.now) }
{
    records
        .iter()
        .all(|&r| segment_fit::codes_fit(segment::Record::from(r)))
}

#[tactic(auto, unfolding(crate::specs::Walks::known_codes))]
fn known_codes(mode: u32, required: u32, records: &[segment::RecordNumbers]) -> bool
    ensures { result ≡ known_codes mode required (records_of records.now) }
{
    mode < 2 && column_type::is_known(required) && all_codes_fit(records)
}

// ---- 19

// No record is of kind 3.
fn none_old(records: &[segment::RecordNumbers]) -> bool
    ensures { result ≡ none_old (records_of records.now) }
{
    records.iter().all(|&r| segment::Record::from(r).kind != 3)
}

// ---- 4

fn all_lists_fit(records: &[segment::RecordNumbers], mut ids: &[u32], mut offsets: &[u32]) -> bool
    requires { HoldsLists (records_of records.now) ids.now offsets.now }
    ensures { result ≡ lists_from (records_of records.now) ids.now offsets.now }
{
    for &r in records {
        let r = segment::Record::from(r);
        let (own_ids, other_ids) = ids.split_at(r.ids as usize);
        let (own_offsets, other_offsets) = offsets.split_at(r.offsets as usize);
        if !segment_fit::lists_fit(r, own_ids, own_offsets) {
            return false;
        }
        ids = other_ids;
        offsets = other_offsets;
    }
    true
}

// ---- 5

fn all_values_fit(
    records: &[segment::RecordNumbers],
    mut values: &[u64],
    mut lengths: &[u32],
    mut bytes: &[u8],
) -> bool
    requires { HoldsValues (records_of records.now) values.now lengths.now bytes.now }
    ensures { result ≡ values_from (records_of records.now) values.now lengths.now bytes.now }
{
    for &r in records {
        let r = segment::Record::from(r);
        let (own_values, other_values) = values.split_at(segment::value_words(r));
        let (own_lengths, other_lengths) = lengths.split_at(r.terms as usize);
        if !segment_fit::values_fit(r, own_values, own_lengths, bytes) {
            return false;
        }
        values = other_values;
        lengths = other_lengths;
        let (_, other_bytes) = bytes.split_at(runs::sum_of(own_lengths));
        bytes = other_bytes;
    }
    true
}

// ---- 6

fn all_alive_fit(mode: u32, records: &[segment::RecordNumbers], mut alive: &[u64]) -> bool
    requires { total alive_words (records_of records.now) ≤ length alive.now }
    ensures { result ≡ alive_fits_from mode (records_of records.now) alive.now }
{
    for &r in records {
        let r = segment::Record::from(r);
        let (own, others) = alive.split_at(segment::alive_words(r));
        if !segment_fit::alive_fits(mode, r, own) {
            return false;
        }
        alive = others;
    }
    true
}

// ---- 7

#[tactic(auto, unfolding(crate::specs::Walks::sums_right))]
fn sums_fit(rows: usize, values: usize, bytes: usize) -> bool
    ensures { result ≡ sums_right rows values bytes }
{
    rows <= 4294967294 && values <= 4294967294 && bytes <= 4294967294
}

// ---- 1 to 7, with 19 right after 3

// The first of the checks up to 7 that fails.
pub fn first_to_seven(
    mode: u32,
    required: u32,
    records: &[segment::RecordNumbers],
    sections: &segment::Sections,
) -> Result<(), Refusal>
    ensures { answer_number result ≡ first_of (checks_to_seven (input_in mode required records.now sections.now [] 0)) }
{
    if 256 < records.len() {
        return Err(Refusal::TooManySegments);
    }
    if !lengths_fit(records, sections) {
        return Err(Refusal::Lengths);
    }
    if !known_codes(mode, required, records) {
        return Err(Refusal::UnknownCode);
    }
    if !none_old(records) {
        return Err(Refusal::OldMultivalued);
    }
    if !all_lists_fit(records, sections.ids, sections.offsets) {
        return Err(Refusal::RowLists);
    }
    if !all_values_fit(records, sections.values, sections.lengths, sections.bytes) {
        return Err(Refusal::Contents);
    }
    if !all_alive_fit(mode, records, sections.alive) {
        return Err(Refusal::AliveSet);
    }
    let t = totals_of(records);
    if !sums_fit(t.rows, t.values, sections.bytes.len()) {
        return Err(Refusal::TooLarge);
    }
    Ok(())
}
