// Row ids and offsets of a stacked join, segment after segment: column_index/merge/stacked.rs (`get_doc_ids_with_values`, `get_num_values_iterator`).
#![tactic(auto)]

ghost use Rattle.std.specs.Prelude.{◌≡◌, ◌∷◌, not, ◌<◌, ◌≤◌, ◌+◌, length, eqb};
ghost use Rattle.definitions.specs.Lists.{sum};
ghost use Rattle.runs.specs.Put.{put, put_if, RoomIf};
ghost use Rattle.stands.specs.Width.{ids_of, totals_of};
ghost use Rattle.stands.specs.Stack.{segment_widths, stacked_widths, all_rows, SoundAt, AllSound};
ghost use Rattle.column_values_merge.specs.Stack.{stacked_words};
ghost use Rattle.column_index_stacked.specs.Stacked.{Stacked};

use stands::{Stand, StandNumbers};

// One segment's row ids, its rows numbered from first on.
fn put_segment_ids(
    p: Stand,
    ids: &[u32],
    offsets: &[u32],
    first: u32,
    out: &mut [u32],
    at: usize,
) -> usize
    requires sound_at { SoundAt p ids.now offsets.now }
    requires rows_bound { first + p.rows < 4294967296 }
    requires offsets_in_bounds { at + length (ids_of first (segment_widths p ids.now offsets.now)) ≤ length out.old }
    ensures value { result ≡ at + length (ids_of first (segment_widths p ids.now offsets.now)) }
    ensures out_after { out.new ≡ put at (ids_of first (segment_widths p ids.now offsets.now)) out.old }
{
    match p.kind {
        0 => at,
        1 => {
            runs::append_range(first, p.rows, out, at);
            at + p.rows
        }
        _ => {
            let listed = &ids[p.ids.from..p.ids.to];
            runs::append_shifted(listed, first, out, at);
            at + listed.len()
        }
    }
}

// One segment's running totals, from total on.
fn put_segment_totals(
    p: Stand,
    ids: &[u32],
    offsets: &[u32],
    total: u32,
    out: &mut [u32],
    at: usize,
) -> usize
    requires sound_at { SoundAt p ids.now offsets.now }
    requires count_bound { total + p.count < 4294967295 }
    requires offsets_in_bounds { at + length (totals_of total (segment_widths p ids.now offsets.now)) ≤ length out.old }
    ensures value { result ≡ at + length (totals_of total (segment_widths p ids.now offsets.now)) }
    ensures out_after { out.new ≡ put at (totals_of total (segment_widths p ids.now offsets.now)) out.old }
{
    match p.kind {
        0 => at,
        1 => {
            runs::append_range(total + 1, p.rows, out, at);
            at + p.rows
        }
        2 => {
            let n = p.ids.to - p.ids.from;
            runs::append_range(total + 1, n, out, at);
            at + n
        }
        _ => {
            let totals = &offsets[p.offsets.from + 1..p.offsets.to];
            runs::append_shifted(totals, total, out, at);
            at + totals.len()
        }
    }
}

// The rows that have a value, segment after segment; returns their number.
pub fn stacked_ids(stands: &[StandNumbers], ids: &[u32], offsets: &[u32], out: &mut [u32]) -> usize
    requires all_sound { AllSound stands.now ids.now offsets.now }
    requires stands_bound { all_rows stands.now < 4294967296 }
    requires offsets_in_bounds { length (ids_of 0 (stacked_widths stands.now ids.now offsets.now)) ≤ length out.old }
    ensures value { result ≡ length (ids_of 0 (stacked_widths stands.now ids.now offsets.now)) }
    ensures out_after { out.new ≡ put 0 (ids_of 0 (stacked_widths stands.now ids.now offsets.now)) out.old }
{
    let mut at = 0;
    let mut first = 0;
    for &row in stands {
        let p = Stand::from(row);
        at = put_segment_ids(p, ids, offsets, first, out, at);
        first += p.rows as u32;
    }
    at
}

// 0, and the running total after each row that has a value, segment after segment; returns how many numbers that is.
pub fn stacked_offsets(
    stands: &[StandNumbers],
    ids: &[u32],
    offsets: &[u32],
    out: &mut [u32],
) -> usize
    requires all_sound { AllSound stands.now ids.now offsets.now }
    requires offsets_bound { sum (stacked_widths stands.now ids.now offsets.now) < 4294967295 }
    requires offsets_in_bounds { length (0 ∷ totals_of 0 (stacked_widths stands.now ids.now offsets.now)) ≤ length out.old }
    ensures value { result ≡ length (0 ∷ totals_of 0 (stacked_widths stands.now ids.now offsets.now)) }
    ensures out_after { out.new ≡ put 0 (0 ∷ totals_of 0 (stacked_widths stands.now ids.now offsets.now)) out.old }
{
    out[0] = 0;
    let mut at = 1;
    let mut total = 0;
    for &row in stands {
        let p = Stand::from(row);
        at = put_segment_totals(p, ids, offsets, total, out, at);
        total += p.count as u32;
    }
    at
}

// The joined column's lists, segment after segment: ids and offsets only in the classes that have them.
#[tactic(auto, unfolding(runs::specs::Put::put_if))]
pub fn stacked_rows(
    class: u32,
    to: u32,
    stands: &[StandNumbers],
    ids: &[u32],
    offsets: &[u32],
    values: &[u64],
    map: &[u32],
    out_ids: &mut [u32],
    out_offsets: &mut [u32],
    out_values: &mut [u64],
)
    requires stacked { Stacked stands.now ids.now offsets.now values.now map.now }
    requires room_if { RoomIf (not (eqb class 0)) 0 (length (ids_of 0 (stacked_widths stands.now ids.now offsets.now))) (length out_ids.old) }
    requires room_if_2 { RoomIf (eqb class 2) 0 (length (0 ∷ totals_of 0 (stacked_widths stands.now ids.now offsets.now))) (length out_offsets.old) }
    requires map_in_bounds { length (stacked_words to stands.now values.now map.now) ≤ length out_values.old }
    ensures out_ids_after { out_ids.new ≡ put_if (not (eqb class 0)) 0 (ids_of 0 (stacked_widths stands.now ids.now offsets.now)) out_ids.old }
    ensures out_offsets_after { out_offsets.new ≡ put_if (eqb class 2) 0 (0 ∷ totals_of 0 (stacked_widths stands.now ids.now offsets.now)) out_offsets.old }
    ensures out_values_after { out_values.new ≡ put 0 (stacked_words to stands.now values.now map.now) out_values.old }
{
    column_values_merge::stacked_values(to, stands, values, map, out_values);
    if class != 0 {
        stacked_ids(stands, ids, offsets, out_ids);
    }
    if class == 2 {
        stacked_offsets(stands, ids, offsets, out_offsets);
    }
}
