// The checks of one segment, over just the numbers and lists that each reads: 3 codes, 4 lists, 5 values and terms, 6 alive set
// (columnar/merge/mod.rs; asserts become answers).
#![tactic(auto)]

ghost use Rattle.std.specs.Prelude.{◌≡◌, ◌≤◌, length};
ghost use Rattle.definitions.specs.Lists.{sum};
ghost use Rattle.segment.specs.Records.{record_in};
ghost use Rattle.segment_fit.specs.Fits.{rises, fits_codes, bare_counts, fits_ids, fits_offsets, fits_full, fits_optional, fits_new, fits_lists, fits_words, fits_terms, fits_pair, fits_values, past_rows, fits_number, fits_set, fits_alive};

// ---- scans

// Whether each number is above the one before it.
fn rises(xs: &[u32]) -> bool
    ensures { result ≡ rises xs.now }
{
    xs.is_sorted_by(|&a, &b| a < b)
}

// ---- 3

// Whether there is no kind and no length, as a segment without a column must have.
#[tactic(auto, unfolding(crate::specs::Fits::bare_counts))]
fn bare_counts(r: segment::Record) -> bool
    ensures { result ≡ bare_counts (record_in r) }
{
    r.kind == 0 && r.ids == 0 && r.offsets == 0 && r.values == 0 && r.terms == 0
}

// Check 3 of one segment.
#[tactic(auto, unfolding(crate::specs::Fits::fits_codes))]
pub fn codes_fit(r: segment::Record) -> bool
    ensures { result ≡ fits_codes (record_in r) }
{
    column_type::is_known(r.typ) && r.kind < 5 && r.flag < 2 && (r.typ != 255 || bare_counts(r))
}

// ---- 4

// The ids ascend and are below the rows; the last is the greatest.
#[tactic(auto, unfolding(crate::specs::Fits::fits_ids))]
fn ids_fit(ids: &[u32], rows: u32) -> bool
    ensures { result ≡ fits_ids rows ids.now }
{
    rises(ids) && ids.last().is_none_or(|&id| id < rows)
}

// The offsets begin with 0 and end with the number of values.
#[tactic(auto, unfolding(crate::specs::Fits::fits_offsets))]
pub fn offsets_fit(offsets: &[u32], values: u32) -> bool
    ensures { result ≡ fits_offsets values offsets.now }
{
    offsets.first() == Some(&0) && offsets.last() == Some(&values)
}

// A value for each row, and neither ids nor offsets; an Empty segment is as a full one of no rows.
#[tactic(auto, unfolding(crate::specs::Fits::fits_full))]
fn full_fits(rows: u32, values: u32, ids: &[u32], offsets: &[u32]) -> bool
    ensures { result ≡ fits_full rows values ids.now offsets.now }
{
    ids.is_empty() && offsets.is_empty() && values == rows
}

#[tactic(auto, unfolding(crate::specs::Fits::fits_optional))]
fn optional_fits(rows: u32, values: u32, ids: &[u32], offsets: &[u32]) -> bool
    ensures { result ≡ fits_optional rows values ids.now offsets.now }
{
    offsets.is_empty() && values as usize == ids.len() && ids_fit(ids, rows)
}

#[tactic(auto, unfolding(crate::specs::Fits::fits_new))]
fn new_fits(rows: u32, values: u32, ids: &[u32], offsets: &[u32]) -> bool
    ensures { result ≡ fits_new rows values ids.now offsets.now }
{
    offsets.len() == ids.len() + 1
        && offsets_fit(offsets, values)
        && rises(offsets)
        && ids_fit(ids, rows)
}

// Check 4 of one segment; none of kind 3 gets here.
#[tactic(auto, unfolding(crate::specs::Fits::fits_lists, crate::specs::Fits::fits_empty, crate::specs::Fits::fits_full))]
pub fn lists_fit(r: segment::Record, ids: &[u32], offsets: &[u32]) -> bool
    ensures { result ≡ fits_lists (record_in r) ids.now offsets.now }
{
    match r.kind {
        0 => full_fits(0, r.values, ids, offsets),
        1 => full_fits(r.rows, r.values, ids, offsets),
        2 => optional_fits(r.rows, r.values, ids, offsets),
        _ => new_fits(r.rows, r.values, ids, offsets),
    }
}

// ---- 5

// A Bool is at most 1, and an ordinal is below the terms.
#[tactic(auto, unfolding(crate::specs::Fits::fits_words))]
fn words_fit(t: u32, terms: usize, values: &[u64]) -> bool
    ensures { result ≡ fits_words t terms values.now }
{
    if t == 5 {
        runs::all_below(values, 2)
    } else if column_type::has_terms(t) {
        runs::all_below(values, terms as u64)
    } else {
        true
    }
}

// Terms stand only where the type has them and the kind is not Empty, and ascend.
#[tactic(auto, unfolding(crate::specs::Fits::fits_terms))]
fn terms_fit(t: u32, kind: u32, lengths: &[u32], bytes: &[u8]) -> bool
    requires { sum lengths.now ≤ length bytes.now }
    ensures { result ≡ fits_terms t kind lengths.now bytes.now }
{
    lengths.is_empty()
        || (column_type::has_terms(t) && kind != 0 && term_reader::terms_rise(lengths, bytes))
}

// The pair is that of all stored values.
#[tactic(auto, unfolding(crate::specs::Fits::fits_pair))]
fn pair_fits(r: segment::Record, values: &[u64]) -> bool
    ensures { result ≡ fits_pair (record_in r) values.now }
{
    let p = min_max::pair_of(r.typ, values);
    r.least == p.least && r.greatest == p.greatest
}

// Check 5 of one segment.
#[tactic(auto, unfolding(crate::specs::Fits::fits_values))]
pub fn values_fit(r: segment::Record, values: &[u64], lengths: &[u32], bytes: &[u8]) -> bool
    requires { sum lengths.now ≤ length bytes.now }
    ensures { result ≡ fits_values (record_in r) values.now lengths.now bytes.now }
{
    words_fit(r.typ, lengths.len(), values)
        && terms_fit(r.typ, r.kind, lengths, bytes)
        && pair_fits(r, values)
}

// ---- 6

// Whether a bit is set past the rows. There are fewer than 64 such bits where the words are as many as the rows ask.
fn past_rows(rows: u32, alive: &[u64]) -> bool
    requires { length alive.now ≤ 67108864 }
    ensures { result ≡ past_rows rows alive.now }
{
    (rows as usize..alive.len() * 64).any(|row| alive_set::is_alive(alive, row))
}

// Whether the number of alive rows is that of the set bits, or the rows where no alive set is.
#[tactic(auto, unfolding(crate::specs::Fits::fits_number))]
fn number_fits(r: segment::Record, alive: &[u64]) -> bool
    requires { length alive.now ≤ 67108864 }
    ensures { result ≡ fits_number (record_in r) alive.now }
{
    if r.flag == 1 {
        r.alive as usize == alive_set::count_alive(alive)
    } else {
        r.alive == r.rows
    }
}

// Whether the alive words and the number go with the record.
#[tactic(auto, unfolding(crate::specs::Fits::fits_set))]
pub fn set_fits(r: segment::Record, alive: &[u64]) -> bool
    requires { length alive.now ≤ 67108864 }
    ensures { result ≡ fits_set (record_in r) alive.now }
{
    !past_rows(r.rows, alive) && number_fits(r, alive)
}

// Check 6 of one segment: an alive set in a stacked join is wrong, and so is a bit past the rows or a wrong number of alive rows.
#[tactic(auto, unfolding(crate::specs::Fits::fits_alive))]
pub fn alive_fits(mode: u32, r: segment::Record, alive: &[u64]) -> bool
    requires { length alive.now ≤ 67108864 }
    ensures { result ≡ fits_alive mode (record_in r) alive.now }
{
    !(mode == 0 && r.flag == 1) && set_fits(r, alive)
}
