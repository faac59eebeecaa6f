// Values of the joined column: column_values/merge.rs (`MergedColumnValues`), merge_dict_column.rs (`RemappedTermOrdinalsValues`) and the coercions of merge/mod.rs.
#![tactic(auto)]

ghost use Rattle.std.specs.Prelude.{◌≡◌, [], ◌∷◌, ◌<◌, ◌≤◌, ◌+◌, length};
ghost use Rattle.runs.specs.Put.{put};
ghost use Rattle.stands.specs.Stand.{part, many, Lies};
ghost use Rattle.stands.specs.Look.{words_of};
ghost use Rattle.column_values_merge.specs.Word.{doubles, coerced_all, words_by, Words, new_words, Worded};
ghost use Rattle.column_values_merge.specs.Stack.{stacked_words, AllWorded};

use stands::{Span, Stand, StandNumbers};

// Writes the double nearest to each integer of type t.
fn append_doubles(t: u32, vs: &[u64], out: &mut [u64], at: usize)
    requires { at + length vs.now ≤ length out.old }
    ensures { out.new ≡ put at (doubles t vs.now) out.old }
{
    for (j, &w) in vs.iter().enumerate() {
        out[at + j] = numerical::integer_to_double(t, w);
    }
}

// Writes words of type t as words of type u; a run that stays as it is, is copied.
fn append_coerced(t: u32, u: u32, vs: &[u64], out: &mut [u64], at: usize)
    requires { at + length vs.now ≤ length out.old }
    ensures { out.new ≡ put at (coerced_all t u vs.now) out.old }
{
    if u == 2 && t != 2 {
        append_doubles(t, vs, out, at);
    } else {
        runs::append(vs, out, at);
    }
}

// Writes a run of a segment's words as the joined column of type `to` has them.
pub fn append_words(
    to: u32,
    typ: usize,
    part: Span,
    vs: &[u64],
    map: &[u32],
    out: &mut [u64],
    at: usize,
)
    requires words { Words typ part map.now vs.now }
    requires vs_in_bounds { at + length vs.now ≤ length out.old }
    ensures { out.new ≡ put at (words_by to typ part map.now vs.now) out.old }
{
    let t = typ as u32;
    if column_type::has_terms(t) {
        runs::append_mapped(vs, &map[part.from..part.to], out, at);
    } else {
        append_coerced(t, to, vs, out, at);
    }
}

// The same as append_words for a run of one word.
fn new_word(to: u32, typ: usize, part: Span, word: u64, map: &[u32]) -> u64
    requires { Words typ part map.now (word ∷ []) }
    ensures { result ∷ [] ≡ words_by to typ part map.now (word ∷ []) }
{
    let t = typ as u32;
    if column_type::has_terms(t) {
        map[part.from + word as usize] as u64
    } else {
        numerical::coerce(t, to, word)
    }
}

// Writes the words of a row whose values are those of the segment from g.start to g.end; returns the index after them. A value of one word or two is not
// copied as a run.
pub fn append_row(
    to: u32,
    p: Stand,
    g: column_index::Range,
    values: &[u64],
    map: &[u32],
    out: &mut [u64],
    at: usize,
) -> usize
    requires start_le_end { g.start ≤ g.end }
    requires lies { Lies (words_of p g.start g.end) values.now }
    requires worded { Worded p map.now (part (words_of p g.start g.end) values.now) }
    requires end_in_bounds { at + many (words_of p g.start g.end) ≤ length out.old }
    ensures value { result ≡ at + many (words_of p g.start g.end) }
    ensures out_after { out.new ≡ put at (new_words to p map.now (part (words_of p g.start g.end) values.now)) out.old }
{
    if g.start == g.end {
        return at;
    }
    let words = &values[p.values.from + g.start * p.unit..p.values.from + g.end * p.unit];
    match (g.end - g.start, p.unit) {
        (1, 1) => {
            out[at] = new_word(to, p.typ, p.map, words[0], map);
            at + 1
        }
        (1, 2) => {
            out[at] = new_word(to, p.typ, p.map, words[0], map);
            out[at + 1] = new_word(to, p.typ, p.map, words[1], map);
            at + 2
        }
        _ => {
            append_words(to, p.typ, p.map, words, map, out, at);
            at + words.len()
        }
    }
}

// The segments' values, one segment after another; returns the number of their words.
pub fn stacked_values(
    to: u32,
    stands: &[StandNumbers],
    values: &[u64],
    map: &[u32],
    out: &mut [u64],
) -> usize
    requires all_worded { AllWorded stands.now values.now map.now }
    requires map_in_bounds { length (stacked_words to stands.now values.now map.now) ≤ length out.old }
    ensures value { result ≡ length (stacked_words to stands.now values.now map.now) }
    ensures out_after { out.new ≡ put 0 (stacked_words to stands.now values.now map.now) out.old }
{
    let mut at = 0;
    for &row in stands {
        let p = Stand::from(row);
        let words = &values[p.values.from..p.values.to];
        append_words(to, p.typ, p.map, words, map, out, at);
        at += words.len();
    }
    at
}
