// Marks of the terms that alive rows use, for an ordered join (columnar/merge/merge_dict_column.rs, `compute_term_bitset` for each column).
#![tactic(auto)]

ghost use Rattle.std.specs.Prelude.{◌≡◌, length};
ghost use Rattle.runs.specs.Put.{Below};
ghost use Rattle.term_marks.specs.Marks.{set_all, used_from, marks_over, marked_all, Marking, Usable, Columns};

use stands::{Stand, StandNumbers};

// Marks each of the ordinals.
fn mark_each(ordinals: &[u64], marks: &mut [u8])
    requires { Below (length marks.old) ordinals.now }
    ensures { marks.new ≡ set_all ordinals.now marks.old }
{
    for &w in ordinals {
        marks[w as usize] = 1;
    }
}

// Marks what the alive rows of a segment use. It takes the numbers that it needs and not the struct, which would be kept in memory for every row.
fn mark_rows(
    kind: usize,
    rows: u32,
    ids: &[u32],
    offsets: &[u32],
    values: &[u64],
    alive: &[u64],
    marks: &mut [u8],
)
    requires { Marking kind rows ids.now offsets.now values.now alive.now (length marks.old) }
    ensures { marks.new ≡ set_all (used_from kind ids.now offsets.now values.now alive.now 0 rows) marks.old }
{
    for row in 0..rows {
        if alive_set::is_alive(alive, row as usize) {
            let at = column_index::value_range(kind, ids, offsets, row, ids.len());
            mark_each(&values[at.start..at.end], marks);
        }
    }
}

// The marks of one segment's terms: what its alive rows use, or all without an alive set. A segment without terms has nothing to mark, whatever its values are.
fn mark_segment(
    p: Stand,
    ids: &[u32],
    offsets: &[u32],
    values: &[u64],
    alive: &[u64],
    marks: &mut [u8],
)
    requires { Usable p ids.now offsets.now values.now alive.now (length marks.old) }
    ensures { marks.new ≡ marks_over p ids.now offsets.now values.now alive.now marks.old }
{
    if p.flag != 1 {
        marks.fill(1);
    } else if !marks.is_empty() {
        mark_rows(
            p.kind,
            p.rows as u32,
            &ids[p.ids.from..p.ids.to],
            &offsets[p.offsets.from..p.offsets.to],
            &values[p.values.from..p.values.to],
            &alive[p.alive.from..p.alive.to],
            marks,
        );
    }
}

// The marks of all segments' terms, where they stand.
pub fn mark_terms(
    stands: &[StandNumbers],
    ids: &[u32],
    offsets: &[u32],
    values: &[u64],
    alive: &[u64],
    marks: &mut [u8],
)
    requires { Columns stands.now ids.now offsets.now values.now alive.now marks.old }
    ensures { marks.new ≡ marked_all stands.now ids.now offsets.now values.now alive.now marks.old }
{
    for &numbers in stands {
        let p = Stand::from(numbers);
        let own = &mut marks[p.terms.from..p.terms.to];
        mark_segment(p, ids, offsets, values, alive, own);
    }
}
