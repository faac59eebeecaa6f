// The merge of segments by time (added by document 01, "Time order"; no Rust file has it). Times don't fall within a segment, so the segments go
// through the heap of the term merger. A row's key stands in its cursor's two words, 0 before all times, else 1, and the time; its term is empty. Where
// the keys are the same the segment's number decides. Where days follow one another a segment stays at the top: its rows that come before every other
// segment's next row are then written as a run, and no row's key is looked at.
#![tactic(auto)]

ghost use Rattle.std.specs.Prelude.{◌≡◌, ◌+◌, ◌*◌, ◌<◌, ◌≤◌, length, replicate};
ghost use Rattle.definitions.specs.TimeOrder.{time_order};
ghost use Rattle.runs.specs.Put.{put};
ghost use Rattle.term_merger.specs.Order.{cursor_in, no_cursor, TermsInside};
ghost use Rattle.term_merger.specs.Live.{Started};
ghost use Rattle.time_cursors.specs.Cursors.{TimesAt, Left};
ghost use Rattle.time_merge.specs.Order.{placed_segments, time_written, Ready, Rising, Begins, Ends};
ghost use Rattle.time_merge.specs.Runs.{alive_up_to, LastListed, addresses, within, Bounds, steps_within, Reach, row_of_time, RunTo};

use term_merger::{Cursor, Heap};

// The next row of the first of the other segments: its key, and whether an equal one comes before it.
#[derive(Clone, Copy)]
struct Bound {
    first: usize,
    second: usize,
    ties: bool,
}

// The row after a run, and how many times stand before it.
#[derive(Clone, Copy)]
struct Run {
    end: usize,
    times: usize,
}

// The end without the withdrawn rows before it.
fn last_listed(flag: usize, alive: &[u64], from: usize, end: usize) -> usize
    requires from_le_end { from ≤ end }
    requires end_bound { flag ≡ 1 → end ≤ 64 * length alive.now }
    ensures { LastListed flag alive.now from end result }
{
    for row in (from..end).rev() {
        if time_cursors::is_listed(flag, alive, row) {
            return row + 1;
        }
    }
    from
}

// The alive rows from the given one up to the end are written from place k on. Returns the place after them. Each row is written at the place of the next
// alive one, and written over unless it is that one; the last row written is alive.
fn write_rows(
    s: usize,
    flag: usize,
    alive: &[u64],
    from: usize,
    end: usize,
    out: &mut [[u32; 2]],
    k: usize,
) -> usize
    requires s_bound { (s < 256) × (from ≤ end) × (end < 4294967296) }
    requires end_bound { flag ≡ 1 → end ≤ 64 * length alive.now }
    requires end_in_bounds { k + length (alive_up_to flag alive.now from end) ≤ length out.old }
    ensures value { result ≡ k + length (alive_up_to flag alive.now from end) }
    ensures out_after { out.new ≡ put k (addresses s (alive_up_to flag alive.now from end)) out.old }
{
    let stop = last_listed(flag, alive, from, end);
    let mut n = k;
    for row in from..stop {
        out[n] = [s as u32, row as u32];
        n += time_cursors::one_if_listed(flag, alive, row);
    }
    n
}

// The bound for the rows of the heap's top. Where it is alone all times come within.
fn bound_of(seg: &[u8; Heap::CAP], len: usize, bytes: &[u8], cursors: &[Cursor], s: usize) -> Bound
    requires in_bounds { (256 ≤ length cursors.now) × TermsInside bytes.now cursors.now }
    requires len_bound { len ≤ 256 }
    ensures { Bounds bytes.now cursors.now seg.now len s result }
{
    if len < 2 {
        return Bound {
            first: 1,
            second: usize::MAX,
            ties: true,
        };
    }
    let c = term_merger::first_child(seg, bytes, cursors, 1, len);
    let other = seg[c] as usize;
    let key = cursors[other].key;
    Bound {
        first: key.first,
        second: key.second,
        ties: s < other,
    }
}

// Whether a time comes before the bound's row.
fn is_within(word: u64, bound: Bound) -> bool
    ensures { result ≡ within bound word }
{
    if bound.first == 0 {
        return false;
    }
    let t = time_checks::time_of(word) as usize;
    if t == bound.second {
        return bound.ties;
    }
    t < bound.second
}

// Whether a step from time m on ends within the bound.
fn steps_within(values: &[u64], bound: Bound, m: usize, step: usize) -> bool
    requires { (m ≤ length values.now) × (0 < step) }
    ensures { result ≡ steps_within values.now bound m step }
{
    if values.len() - m < step {
        return false;
    }
    is_within(values[m + step - 1], bound)
}

// How many times come within the bound; the first n do. Steps are doubled while they end within it, and halved else.
fn times_within(values: &[u64], bound: Bound, n: usize) -> usize
    requires { n ≤ length values.now }
    ensures { Reach values.now bound n result }
{
    let mut m = n;
    let mut step: usize = 1;
    while 0 < step {
        if steps_within(values, bound, m, step) {
            m += step;
            step = 2 * step;
        } else {
            step = step / 2;
        }
    }
    m
}

// The row of time m, or the number of rows.
fn row_of(kind: usize, ids: &[u32], rows: usize, m: usize) -> usize
    ensures { result ≡ row_of_time kind ids.now rows m }
{
    match kind {
        0 => rows,
        1 => m,
        _ if ids.len() <= m => rows,
        _ => ids[m] as usize,
    }
}

// Where the run of the heap's top ends. A segment that has just come to the top gives one row: where segments overlap it hardly ever stays.
fn run_of(
    seg: &[u8; Heap::CAP],
    len: usize,
    bytes: &[u8],
    cursors: &[Cursor],
    s: usize,
    stays: bool,
    p: stands::Stand,
    ids: &[u32],
    values: &[u64],
) -> Run
    requires cursors_len { (length cursors.now ≡ 256) × TermsInside bytes.now cursors.now × (len ≤ 256) × (s < 256) }
    requires times_at { TimesAt p ids.now values.now }
    requires left { Left p ids.now ((cursor_in cursors.now s).pos + 1) (cursor_in cursors.now s).to }
    ensures { RunTo bytes.now cursors.now seg.now len s p ids.now values.now result }
{
    let cursor = cursors[s];
    if !stays {
        return Run {
            end: cursor.pos + 1,
            times: cursor.to,
        };
    }
    let bound = bound_of(seg, len, bytes, cursors, s);
    let m = times_within(&values[p.values.from..p.values.to], bound, cursor.to);
    Run {
        end: row_of(p.kind, &ids[p.ids.from..p.ids.to], p.rows, m),
        times: m,
    }
}

// The first cursor of each segment.
pub fn fill_cursors(
    stands: &[stands::StandNumbers],
    ids: &[u32],
    values: &[u64],
    alive: &[u64],
    cursors: &mut [Cursor],
)
    requires ready { Ready stands.now ids.now values.now alive.now }
    requires cursors_value { cursors.old ≡ replicate 256 no_cursor }
    ensures { Begins (placed_segments stands.now ids.now values.now alive.now) cursors.new }
{
    for s in 0..stands.len() {
        let p = stands::stand_at(stands, s);
        cursors[s] = time_cursors::first_from(p, ids, values, alive, 0, 0);
    }
}

// The rows of the first of the segments, the heap's top, are written again and again, one or a run, and it goes on to its next alive row. Nothing is read of
// the term bytes, since all terms are empty.
pub fn merge(
    heap: Heap,
    bytes: &[u8],
    stands: &[stands::StandNumbers],
    ids: &[u32],
    values: &[u64],
    alive: &[u64],
    cursors: &mut [Cursor],
    out: &mut [[u32; 2]],
) -> usize
    requires ready { Ready stands.now ids.now values.now alive.now }
    requires rising { Rising stands.now ids.now values.now alive.now out.old }
    requires begins { Begins (placed_segments stands.now ids.now values.now alive.now) cursors.old }
    requires started { Started bytes.now cursors.old heap }
    ensures value { result ≡ length (time_order (placed_segments stands.now ids.now values.now alive.now)) }
    ensures out_after { out.new ≡ time_written (placed_segments stands.now ids.now values.now alive.now) out.old }
    ensures ends { Ends (placed_segments stands.now ids.now values.now alive.now) cursors.new }
{
    let mut h = heap;
    let mut k: usize = 0;
    let mut last = None;
    while 0 < h.len {
        let s = h.seg[0] as usize;
        let n = h.len;
        let p = stands::stand_at(stands, s);
        let run = run_of(
            &h.seg,
            n,
            bytes,
            cursors,
            s,
            last == Some(s),
            p,
            ids,
            values,
        );
        let set = &alive[p.alive.from..p.alive.to];
        k = write_rows(s, p.flag, set, cursors[s].pos, run.end, out, k);
        cursors[s] = time_cursors::first_from(p, ids, values, alive, run.end, run.times);
        h.len = term_merger::settle_top(&mut h.seg, n, bytes, cursors);
        last = Some(s);
    }
    k
}
