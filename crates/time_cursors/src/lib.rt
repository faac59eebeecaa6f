// One segment's rows in time order (added by document 01, "Time order"; no Rust file has it): the next alive row with its key, which is its time,
// else the last time before it in the segment, else the first one after it (document 02, (e)), else before all times. Withdrawn rows are passed over,
// and still give their time.
#![tactic(auto)]

ghost use Rattle.std.specs.Prelude.{◌≡◌, cond, suc, ◌+◌, ◌-◌, ◌*◌, ◌<◌, ◌≤◌, length, T};
ghost use Rattle.definitions.specs.Lists.{ascending};
ghost use Rattle.column_index.specs.Lookup.{rank_in};
ghost use Rattle.time_cursors.specs.Cursors.{alive_bit, next_row, times_before, last_key, key_cursor, first_from, segment_in, Timed, Left};

use term_merger::Cursor;
use term_order::Key;

// Whether the row is alive; all are where there is no alive set.
pub fn is_listed(flag: usize, alive: &[u64], row: usize) -> bool
    requires { flag ≡ 1 → row < 64 * length alive.now }
    ensures { result ≡ alive_bit flag alive.now row }
{
    flag != 1 || alive_set::is_alive(alive, row)
}

// 1 for an alive row, else 0: no branch, which could not be foreseen.
pub fn one_if_listed(flag: usize, alive: &[u64], row: usize) -> usize
    requires { flag ≡ 1 → row < 64 * length alive.now }
    ensures value { result ≡ cond (alive_bit flag alive.now row) 1 0 }
    ensures upper_bound { result ≤ 1 }
{
    is_listed(flag, alive, row) as usize
}

// The first alive row from the given one on, or the number of rows.
fn next_alive(flag: usize, alive: &[u64], rows: usize, from: usize) -> usize
    requires from_le_rows { from ≤ rows }
    requires rows_bound { flag ≡ 1 → rows ≤ 64 * length alive.now }
    ensures { result ≡ next_row flag alive.now rows from }
{
    if flag != 1 {
        return from;
    }
    for n in from..rows {
        if alive_set::is_alive(alive, n) {
            return n;
        }
    }
    rows
}

// How many ids are at most the row; the first k are.
fn ids_until(ids: &[u32], row: usize, k: usize) -> usize
    requires t { T (ascending ids.now) }
    requires k_bound { k ≤ rank_in (suc row) ids.now }
    ensures { result ≡ rank_in (suc row) ids.now }
{
    for n in k..ids.len() {
        if row < ids[n] as usize {
            return n;
        }
    }
    ids.len()
}

// How many times stand up to the row's end; k stand before a row that is not after it.
fn times_until(kind: usize, ids: &[u32], row: usize, k: usize) -> usize
    requires row_bound { row < 4294967296 }
    requires t { T (ascending ids.now) }
    requires k_bound { (kind ≡ 0 → ⊥) → (kind ≡ 1 → ⊥) → k ≤ rank_in (suc row) ids.now }
    ensures { result ≡ times_before kind ids.now (suc row) }
{
    match kind {
        0 => 0,
        1 => row + 1,
        _ => ids_until(ids, row, k),
    }
}

// The cursor at a row with n times up to its end.
fn key_cursor(values: &[u64], n: usize, row: usize, rows: usize) -> Cursor
    requires { n ≤ length values.now }
    ensures { result ≡ key_cursor (last_key values.now n) row rows n }
{
    let key = if values.is_empty() {
        Cursor::NONE.key
    } else {
        // untimed rows at a segment's start go with the first time (02, (e))
        let t = time_checks::time_of(values[n.saturating_sub(1)]);
        Key {
            first: 1,
            second: t as usize,
            ..Cursor::NONE.key
        }
    };
    Cursor {
        key,
        unmarked: 0,
        pos: row,
        end: rows,
        to: n,
    }
}

// The cursor at the first alive row from the given one on; k times stand before it.
pub fn first_from(
    p: stands::Stand,
    ids: &[u32],
    values: &[u64],
    alive: &[u64],
    from: usize,
    k: usize,
) -> Cursor
    requires timed { Timed p ids.now values.now alive.now }
    requires left { Left p ids.now from k }
    ensures { result ≡ first_from (segment_in p ids.now values.now alive.now) from }
{
    let n = next_alive(p.flag, &alive[p.alive.from..p.alive.to], p.rows, from);
    if p.rows <= n {
        return Cursor {
            pos: p.rows,
            end: p.rows,
            ..Cursor::NONE
        };
    }
    let m = times_until(p.kind, &ids[p.ids.from..p.ids.to], n, k);
    key_cursor(&values[p.values.from..p.values.to], m, n, p.rows)
}
