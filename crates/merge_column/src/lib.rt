// One column's join in parts: where the segments stand as they count in it, the checks 10 and 11 with the lengths of all lists, and the fills
// (columnar/merge/mod.rs, `merge_column`; an error or an assert is an answer).
#![tactic(auto)]

ghost use Rattle.std.specs.Prelude.{◌≡◌, cond, not, ◌∷◌, ◌<◌, ◌≤◌, eqb};
ghost use Rattle.runs.specs.Put.{put, put_if};
ghost use Rattle.stands.specs.Width.{ids_of, totals_of};
ghost use Rattle.census.specs.Settled.{no_tally, tally_from};
ghost use Rattle.min_max.specs.Keys.{pair_in};
ghost use Rattle.merge_type.specs.Parts.{Coded};
ghost use Rattle.merge_column.specs.Plan.{Preparing, settled_of, class_for, offsets_for, enough_for, plan_of, plan_for, widths_for, joined_words, left_for, Filling, pair_for};

use census::Tally;
use refusal::Refusal;
use stands::StandNumbers;

// Where the segments stand as they count in the join, and the sums over them.
pub fn prepare(
    records: &[segment::RecordNumbers],
    ids: &[u32],
    offsets: &[u32],
    lengths: &[u32],
    alive: &[u64],
    stands: &mut [StandNumbers],
) -> Tally
    requires { Preparing records.now ids.now offsets.now lengths.now alive.now stands.old }
    ensures value { result ≡ tally_from no_tally stands.new ids.now offsets.now alive.now }
    ensures stands_after { stands.new ≡ settled_of records.now ids.now offsets.now lengths.now alive.now }
{
    stands::fill_stands(records, stands);
    census::settle_all(ids, offsets, lengths, alive, stands)
}

// The joined class, 0 where there is no column.
fn class_of(typ: u32, greatest: u32) -> u32
    ensures { result ≡ class_for typ greatest }
{
    if typ == 255 {
        return 0;
    }
    greatest
}

// How many elements each output has place for, that of values in words.
#[derive(Clone, Copy)]
pub struct Space {
    pub ids: usize,
    pub offsets: usize,
    pub values: usize,
    pub lengths: usize,
    pub bytes: usize,
    pub map: usize,
}

// The joined column's type, class and rows, and the number of elements of its lists but the terms', with the words of its values; the map has one for each term
// of the held columns.
#[derive(Clone, Copy)]
pub struct Shape {
    pub typ: u32,
    pub class: u32,
    pub rows: usize,
    pub ids: usize,
    pub offsets: usize,
    pub values: usize,
    pub words: usize,
    pub map: usize,
}

fn rows_of(mode: u32, rows: usize, addresses: usize) -> usize
    ensures { result ≡ cond (eqb mode 0) rows addresses }
{
    if mode == 0 {
        return rows;
    }
    addresses
}

fn offsets_of(class: u32, listed: usize) -> usize
    requires { listed < 18446744073709551615 }
    ensures { result ≡ offsets_for class listed }
{
    if class == 2 {
        return listed + 1;
    }
    0
}

// Check 11: no output is shorter than its list, nor those of terms and map than the held columns' sums.
fn has_room(x: Shape, bytes: usize, space: Space) -> bool
    ensures { result ≡ enough_for x bytes space }
{
    if space.ids < x.ids {
        return false;
    }
    if space.offsets < x.offsets {
        return false;
    }
    if space.values < x.words {
        return false;
    }
    if space.lengths < x.map {
        return false;
    }
    if space.bytes < bytes {
        return false;
    }
    x.map <= space.map
}

// The shape of a column of type typ, and 11 where it has no room.
fn shape_of(typ: u32, rows: usize, t: Tally, space: Space) -> Result<Shape, Refusal>
    requires listed_bound { t.listed < 18446744073709551615 }
    requires values_bound { t.values ≤ 4294967294 }
    ensures { result ≡ plan_of typ rows t space }
{
    let class = class_of(typ, t.class);
    let x = Shape {
        typ: typ,
        class: class,
        rows: rows,
        ids: runs::unless(class == 0, t.listed),
        offsets: offsets_of(class, t.listed),
        values: t.values,
        words: t.values * column_type::words_per_value(typ),
        map: t.terms,
    };
    if !has_room(x, t.bytes, space) {
        return Err(Refusal::OutputSpace);
    }
    Ok(x)
}

// Check 10, then check 11: the first of the two that fails, or the shape of the joined column, from the sums over its segments.
pub fn measure(
    mode: u32,
    required: u32,
    stands: &[StandNumbers],
    addresses: usize,
    t: Tally,
    space: Space,
) -> Result<Shape, Refusal>
    requires coded { Coded stands.now }
    requires listed_bound { t.listed < 18446744073709551615 }
    requires values_bound { t.values ≤ 4294967294 }
    ensures { result ≡ plan_for mode required stands.now addresses t space }
{
    let Some(typ) = merge_type::check_types(required, stands) else {
        return Err(Refusal::Types);
    };
    let rows = rows_of(mode, t.rows, addresses);
    shape_of(typ, rows, t, space)
}

// Row ids, offsets and the words of the values of a column of the given class and type: segment after segment when stacked, as the addresses say when ordered.
pub fn fill_rows(
    mode: u32,
    class: u32,
    to: u32,
    addresses: &[[u32; 2]],
    stands: &[StandNumbers],
    ids: &[u32],
    offsets: &[u32],
    values: &[u64],
    map: &[u32],
    work: &mut [u8],
    out_ids: &mut [u32],
    out_offsets: &mut [u32],
    out_values: &mut [u64],
)
    requires { Filling mode class to addresses.now stands.now ids.now offsets.now values.now map.now out_ids.old out_offsets.old out_values.old }
    ensures out_ids_after { out_ids.new ≡ put_if (not (eqb class 0)) 0 (ids_of 0 (widths_for mode addresses.now stands.now ids.now offsets.now)) out_ids.old }
    ensures out_offsets_after { out_offsets.new ≡ put_if (eqb class 2) 0 (0 ∷ totals_of 0 (widths_for mode addresses.now stands.now ids.now offsets.now)) out_offsets.old }
    ensures out_values_after { out_values.new ≡ put 0 (joined_words mode to addresses.now stands.now ids.now offsets.now values.now map.now) out_values.old }
    ensures work_after { work.new ≡ left_for mode work.old }
{
    if mode == 0 {
        column_index_stacked::stacked_rows(
            class,
            to,
            stands,
            ids,
            offsets,
            values,
            map,
            out_ids,
            out_offsets,
            out_values,
        );
        return;
    }
    column_index_shuffled::ordered_rows(
        class,
        to,
        addresses,
        stands,
        ids,
        offsets,
        values,
        map,
        work,
        out_ids,
        out_offsets,
        out_values,
    );
}

// The least and the greatest of the joined words: the held columns' own where none of them has an alive set, so that all their values are joined.
pub fn joined_pair(to: u32, stands: &[StandNumbers], words: &[u64]) -> min_max::Range
    ensures { pair_in result ≡ pair_for to stands.now words.now }
{
    if merge_type::any_thinned(stands) {
        return min_max::pair_of(to, words);
    }
    merge_type::held_pair(to, stands)
}
