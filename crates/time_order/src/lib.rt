// The time order (added by document 01, "Time order"; no Rust file has it): the alive rows of columns of times, sorted by key, segment and row.
#![tactic(auto)]

ghost use Rattle.std.specs.Prelude.{◌≡◌, length};
ghost use Rattle.definitions.specs.TimeOrder.{time_order, time_outcome};
ghost use Rattle.segment.specs.Lent.{addresses_of};
ghost use Rattle.time_checks.specs.Lent.{times_in};
ghost use Rattle.stands.specs.Stand.{stands_in};
ghost use Rattle.time_merge.specs.Order.{placed_segments, time_written, Ready, Rising};
ghost use Rattle.time_order.specs.Outcome.{outcome_of, output_of};

use refusal::Refusal;
use term_merger::{Cursor, Heap};

// The time order of segments that have passed the checks.
fn order_rows(
    records: &[segment::RecordNumbers],
    ids: &[u32],
    values: &[u64],
    alive: &[u64],
    out: &mut [[u32; 2]],
) -> usize
    requires ready { Ready (stands_in records.now) ids.now values.now alive.now }
    requires rising { Rising (stands_in records.now) ids.now values.now alive.now out.old }
    ensures value { result ≡ length (time_order (placed_segments (stands_in records.now) ids.now values.now alive.now)) }
    ensures out_after { out.new ≡ time_written (placed_segments (stands_in records.now) ids.now values.now alive.now) out.old }
{
    let n = records.len();
    let mut stands = [[0usize; stands::NUMBERS]; 256];
    stands::fill_stands(records, &mut stands);
    let mut cursors = [Cursor::NONE; Heap::CAP];
    time_merge::fill_cursors(&stands[..n], ids, values, alive, &mut cursors);
    // all terms are empty: nothing is read of the term bytes
    let bytes = [0u8; 1];
    let heap = term_merger::start_heap(&bytes, &cursors);
    time_merge::merge(
        heap,
        &bytes,
        &stands[..n],
        ids,
        values,
        alive,
        &mut cursors,
        out,
    )
}

// The alive rows of segments of times, sorted by key, segment and row, as addresses (segment, row) from the start of the output; how many they are, or the first check that fails.
pub fn time_order(
    records: &[segment::RecordNumbers],
    sections: &segment::Sections,
    out: &mut [[u32; 2]],
) -> Result<usize, Refusal>
    ensures out_after { outcome_of result out.new ≡ time_outcome (times_in records.now sections.now (length out.old)) (addresses_of out.old) }
    ensures out_after_2 { out.new ≡ output_of (times_in records.now sections.now (length out.old)) out.old }
{
    time_checks::answer(records, sections, out.len())?;
    Ok(order_rows(records, sections.ids, sections.values, sections.alive, out))
}
