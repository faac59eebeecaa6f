// The segment records lent as one run of record structs: one record is taken out and goes by value to the covered check
// (columnar/merge/mod.rs: `Vec<Option<..>>` of columns).
#![tactic(auto)]

ghost use Rattle.std.specs.Prelude.{◌≡◌, ◌<◌, length, get_or};
ghost use Rattle.segment.specs.Records.{record_in};
ghost use Rattle.segment_fit.specs.Fits.{fits_codes};
ghost use Rattle.records.specs.Rows.{none, numbers_of, count_of, laid_to};

// Record i.
pub fn record_of(records: &[segment::Record], i: usize) -> segment::Record
    requires { i < length records.now }
    ensures { result ≡ get_or records.now i none }
{
    records[i]
}

// Check 3 of segment i.
pub fn codes_fit_at(records: &[segment::Record], i: usize) -> bool
    requires { i < length records.now }
    ensures { result ≡ fits_codes (record_in (get_or records.now i none)) }
{
    segment_fit::codes_fit(records[i])
}

// Record i as a row of numbers.
pub fn row_of(records: &[segment::Record], i: usize) -> segment::RecordNumbers
    requires { i < length records.now }
    ensures { result ≡ numbers_of (get_or records.now i none) }
{
    records[i].into()
}

// How many records a table of 257 rows takes: one more than may be joined, so that too many are seen.
#[tactic(auto, unfolding(crate::specs::Rows::count_of))]
pub fn count_of(n: usize) -> usize
    ensures { result ≡ count_of n }
{
    n.min(257)
}

// The table with a row for each record.
pub fn rows_of(records: &[segment::Record]) -> [segment::RecordNumbers; 257]
    ensures { result ≡ laid_to records.now (count_of (length records.now)) }
{
    let mut table = [[0; segment::WIDTH]; 257];
    for i in 0..count_of(records.len()) {
        table[i] = row_of(records, i);
    }
    table
}
