// Withdrawing and reinstating plays, with the number of alive rows kept in the record (added by document 02, (f); no Rust file has it).
#![tactic(auto)]

ghost use Rattle.std.specs.Prelude.{◌≡◌, [], false, ◌<◌, ◌-◌};
ghost use Rattle.definitions.specs.Lists.{all_below};
ghost use Rattle.definitions.specs.Withdraw.{withdrawing, reinstating, row_absent, mark_number, marked_row, marked_rows, changes_to, mark_outcome, withdraw_outcome, reinstate_outcome};
ghost use Rattle.refusal.specs.Number.{answer_number};
ghost use Rattle.withdraw.specs.Lent.{set_by, lent_set, outcome_of, record_left, marking_of, Markable};

use refusal::Refusal;

// ---- 2, 3, 6, 15 and 16

// Whether each row is one of n.
fn rows_there(rows: &[u32], n: u32) -> bool
    ensures { result ≡ all_below n rows.now }
{
    rows.iter().all(|&row| row < n)
}

// The first check that fails is the refusal. 6 reads all words; 15 comes before 16.
fn first_wrong(r: segment::Record, words: &[u64], rows: &[u32]) -> Result<(), Refusal>
    ensures { answer_number result ≡ mark_number (set_by r words.now) rows.now }
{
    if words.len() != segment::alive_words(r) {
        return Err(Refusal::Lengths);
    }
    if 2 <= r.flag {
        return Err(Refusal::UnknownCode);
    }
    if !segment_fit::set_fits(r, words) {
        return Err(Refusal::AliveSet);
    }
    if !rows_there(rows, r.rows) {
        return Err(Refusal::AbsentRow);
    }
    if r.flag == 0 {
        return Err(Refusal::NoAliveSet);
    }
    Ok(())
}

// ---- the rows

// The row's bit and the record's number of alive rows, as they are to be; nothing changes where the row is so already.
fn mark_row(alive: bool, r: segment::Record, words: &mut [u64], row: usize) -> segment::Record
    requires markable { Markable (set_by r words.old) }
    requires row_lt_rows { row < r.rows }
    ensures { set_by result words.new ≡ marked_row alive (set_by r words.old) row }
{
    if alive_set::is_alive(words, row) == alive {
        return r;
    }
    if alive {
        alive_set::set_alive(words, row);
        segment::Record {
            alive: r.alive + 1,
            ..r
        }
    } else {
        alive_set::clear_alive(words, row);
        segment::Record {
            alive: r.alive - 1,
            ..r
        }
    }
}

// Row after row.
fn mark_all(alive: bool, r: segment::Record, words: &mut [u64], rows: &[u32]) -> segment::Record
    requires markable { Markable (set_by r words.old) }
    requires rows_value { row_absent (set_by r words.old) rows.now ≡ false }
    ensures { set_by result words.new ≡ marked_rows alive (set_by r words.old) rows.now }
{
    let mut q = r;
    for &row in rows {
        q = mark_row(alive, q, words, row as usize);
    }
    q
}

// How many rows changed, by the numbers of alive rows before and after.
fn changes(alive: bool, r: segment::Record, after: u32) -> u32
    ensures { result ≡ changes_to alive (set_by r []) after }
{
    if alive {
        after.saturating_sub(r.alive)
    } else {
        r.alive.saturating_sub(after)
    }
}

// ---- the calls: how many rows changed, 0 where they were so already, or the first check that fails

// Makes the rows alive, or withdraws them: all of them, or none if one of the checks fails.
fn mark(
    alive: bool,
    record: &mut segment::RecordNumbers,
    words: &mut [u64],
    rows: &[u32],
) -> Result<u32, Refusal>
    ensures words_after { outcome_of result «record».new words.new ≡ mark_outcome (marking_of alive rows.now) (lent_set «record».old words.old) }
    ensures record_after { «record».new ≡ record_left (mark_outcome (marking_of alive rows.now) (lent_set «record».old words.old)) «record».old }
{
    let r = segment::Record::from(*record);
    first_wrong(r, words, rows)?;
    let q = mark_all(alive, r, words, rows);
    *record = q.into();
    Ok(changes(alive, r, q.alive))
}

// Withdraws a row.
pub fn withdraw(
    record: &mut segment::RecordNumbers,
    words: &mut [u64],
    row: u32,
) -> Result<u32, Refusal>
    ensures words_after { outcome_of result «record».new words.new ≡ withdraw_outcome row (lent_set «record».old words.old) }
    ensures record_after { «record».new ≡ record_left (withdraw_outcome row (lent_set «record».old words.old)) «record».old }
{
    let rows = [row];
    mark(false, record, words, &rows)
}

// Reinstates a row.
pub fn reinstate(
    record: &mut segment::RecordNumbers,
    words: &mut [u64],
    row: u32,
) -> Result<u32, Refusal>
    ensures words_after { outcome_of result «record».new words.new ≡ reinstate_outcome row (lent_set «record».old words.old) }
    ensures record_after { «record».new ≡ record_left (reinstate_outcome row (lent_set «record».old words.old)) «record».old }
{
    let rows = [row];
    mark(true, record, words, &rows)
}

// Withdraws a run of rows. The test of 6, which reads all words, is made once for all of them.
pub fn withdraw_rows(
    record: &mut segment::RecordNumbers,
    words: &mut [u64],
    rows: &[u32],
) -> Result<u32, Refusal>
    ensures words_after { outcome_of result «record».new words.new ≡ mark_outcome (withdrawing rows.now) (lent_set «record».old words.old) }
    ensures record_after { «record».new ≡ record_left (mark_outcome (withdrawing rows.now) (lent_set «record».old words.old)) «record».old }
{
    mark(false, record, words, rows)
}

// Reinstates a run of rows.
pub fn reinstate_rows(
    record: &mut segment::RecordNumbers,
    words: &mut [u64],
    rows: &[u32],
) -> Result<u32, Refusal>
    ensures words_after { outcome_of result «record».new words.new ≡ mark_outcome (reinstating rows.now) (lent_set «record».old words.old) }
    ensures record_after { «record».new ≡ record_left (mark_outcome (reinstating rows.now) (lent_set «record».old words.old)) «record».old }
{
    mark(true, record, words, rows)
}
