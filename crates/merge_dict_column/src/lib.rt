// The merged dictionary and the map from old ordinals to new ones (columnar/merge/merge_dict_column.rs, `serialize_merged_dict`).
#![tactic(auto)]

ghost use Rattle.std.specs.Prelude.{◌≡◌, ℕ, ◌<◌, ◌^◌, get_or};
ghost use Rattle.term_cursors.specs.Runs.{Runs};
ghost use Rattle.merge_dict_column.specs.Dict.{Texts, Dictionary};
ghost use Rattle.merge_dict_column.specs.Fill.{marks_for, MarksFor, DictionaryGiven, DictionaryLeft};

use stands::StandNumbers;
use term_merger::{Cursor, Heap};
use term_walk::Kept;

// The held segments' dictionaries as one, and each old ordinal's new one. A term's mark is 0 where it is not kept, and all means that every term is.
pub fn merge_dict(
    stands: &[StandNumbers],
    lengths: &[u32],
    bytes: &[u8],
    marks: &[u8],
    all: bool,
    out_lengths: &mut [u32],
    out_bytes: &mut [u8],
    map: &mut [u32],
) -> Kept
    requires runs { Runs stands.now lengths.now bytes.now marks.now all }
    requires texts { Texts stands.now lengths.now bytes.now out_lengths.old out_bytes.old map.old }
    ensures { Dictionary stands.now lengths.now bytes.now marks.now all out_lengths.old out_bytes.old map.old result.terms result.bytes result.copied out_lengths.new out_bytes.new map.new }
{
    let mut cursors = [Cursor::NONE; Heap::CAP];
    term_cursors::fill_cursors(stands, lengths, bytes, marks, all, &mut cursors);
    let heap = term_merger::start_heap(bytes, &cursors);
    term_walk::merge_terms(
        heap,
        &mut cursors,
        lengths,
        bytes,
        marks,
        all,
        out_lengths,
        out_bytes,
        map,
    )
}

// The marks of the terms that are kept; a stacked join keeps all, without marks.
fn mark(
    mode: u32,
    stands: &[StandNumbers],
    ids: &[u32],
    offsets: &[u32],
    values: &[u64],
    alive: &[u64],
    marks: &mut [u8],
)
    requires { MarksFor mode stands.now ids.now offsets.now values.now alive.now marks.old }
    ensures { marks.new ≡ marks_for mode stands.now ids.now offsets.now values.now alive.now marks.old }
{
    if mode == 0 {
        return;
    }
    term_marks::mark_terms(stands, ids, offsets, values, alive, marks);
}

// The joined terms and the map. The working bytes are zero before and after. That each value is a word is said here, where the values are a parameter: of a slice in a struct the check knows the length alone.
pub fn fill_dictionary(
    mode: u32,
    stands: &[StandNumbers],
    ids: &[u32],
    offsets: &[u32],
    values: &[u64],
    lengths: &[u32],
    bytes: &[u8],
    alive: &[u64],
    work: &mut [u8],
    out_lengths: &mut [u32],
    out_bytes: &mut [u8],
    out_map: &mut [u32],
) -> Kept
    requires { DictionaryGiven mode stands.now ids.now offsets.now values.now lengths.now bytes.now alive.now work.old out_lengths.old out_bytes.old out_map.old }
    ensures words { (i : ℕ) → get_or values.now i 0 < 2 ^ 64 }
    ensures left { DictionaryLeft mode stands.now ids.now offsets.now values.now lengths.now bytes.now alive.now work.old out_lengths.old out_bytes.old out_map.old result.terms result.bytes result.copied work.new out_lengths.new out_bytes.new out_map.new }
{
    // one mark for each term when ordered
    let n = runs::unless(mode == 0, lengths.len());
    mark(mode, stands, ids, offsets, values, alive, &mut work[..n]);
    let c = merge_dict(
        stands,
        lengths,
        bytes,
        &work[..n],
        mode == 0,
        out_lengths,
        out_bytes,
        out_map,
    );
    runs::zero(&mut work[..n]);
    c
}
