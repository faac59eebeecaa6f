// Row ids, offsets and values of an ordered join, in one pass over the addresses: column_index/merge/shuffled.rs (`ShuffledIndex`, `iter_num_values`,
// `integrate_num_vals`) and the shuffled half of column_values/merge.rs.
#![tactic(auto)]

ghost use Rattle.std.specs.Prelude.{◌≡◌, ◌∷◌, not, ◌<◌, ◌≤◌, ◌+◌, length, replicate, eqb};
ghost use Rattle.runs.specs.Put.{put, put_if, RoomIf};
ghost use Rattle.stands.specs.Width.{id_part, ids_of, totals_of};
ghost use Rattle.stands.specs.Look.{widths};
ghost use Rattle.column_index_shuffled.specs.Order.{ordered_words, Ordered};
ghost use Rattle.column_index_shuffled.specs.Plain.{is_plain, all_plain, plain_words, Placed};

use stands::{Stand, StandNumbers};

// Writes x where it is wanted and the row has a value.
#[tactic(auto, using(runs::proofs::Laws::put_one, runs::proofs::Laws::put_nil), unfolding(runs::specs::Put::put_if))]
fn put_part(wanted: bool, w: usize, x: u32, out: &mut [u32], at: usize)
    requires { RoomIf wanted at (length (id_part x w)) (length out.old) }
    ensures { out.new ≡ put_if wanted at (id_part x w) out.old }
{
    if wanted && w != 0 {
        out[at] = x;
    }
}

// ---- guesses at ranks: of every fourth row of a segment with ids, in the four working bytes that stand for these rows. A guess saves a search and bears on no
// result, so nothing is said of what stands there.

// The guesses of one segment.
fn fill_segment(ids: &[u32], out: &mut [u8]) {
    let mut k = 0;
    for (j, guess) in out.chunks_exact_mut(4).enumerate() {
        k += ids[k..]
            .iter()
            .take_while(|&&id| (id as usize) < 4 * j)
            .count();
        guess.copy_from_slice(&k.to_le_bytes()[..4]);
    }
}

// The guesses of a segment with ids, if there is a working byte for each of its rows.
fn fill_if(p: Stand, ids: &[u32], work: &mut [u8]) {
    if p.ids.from < p.ids.to
        && p.ids.to <= ids.len()
        && p.work <= work.len()
        && p.rows <= work.len() - p.work
    {
        let end = p.work + p.rows;
        fill_segment(&ids[p.ids.from..p.ids.to], &mut work[p.work..end]);
    }
}

// The guesses of all segments.
fn fill_guesses(stands: &[StandNumbers], ids: &[u32], work: &mut [u8]) {
    for &row in stands {
        fill_if(Stand::from(row), ids, work);
    }
}

// A guess at the row's rank in its segment, 0 where none stands; kinds 0 and 1 have no ids, and their rows are not held up.
fn guess(p: Stand, row: u32, work: &[u8]) -> usize {
    if p.kind <= 1 || work.len() <= p.work {
        return 0;
    }
    let at = p.work + row as usize / 4 * 4;
    if work.len() < at + 4 {
        return 0;
    }
    u32::from_le_bytes([work[at], work[at + 1], work[at + 2], work[at + 3]]) as usize
}

// ---- the rows

// Each row is looked up once: its number and the running total of values, t, are written if it has a value and the class has them, and its words at v.
fn write_rows(
    class: u32,
    to: u32,
    addresses: &[[u32; 2]],
    stands: &[StandNumbers],
    ids: &[u32],
    offsets: &[u32],
    values: &[u64],
    map: &[u32],
    work: &[u8],
    out_ids: &mut [u32],
    out_offsets: &mut [u32],
    out_values: &mut [u64],
)
    requires ordered { Ordered addresses.now stands.now ids.now offsets.now values.now map.now }
    requires room_if { RoomIf (not (eqb class 0)) 0 (length (ids_of 0 (widths stands.now ids.now offsets.now addresses.now))) (length out_ids.old) }
    requires room_if_2 { RoomIf (eqb class 2) 0 (length (0 ∷ totals_of 0 (widths stands.now ids.now offsets.now addresses.now))) (length out_offsets.old) }
    requires addresses_in_bounds { length (ordered_words to stands.now ids.now offsets.now values.now map.now addresses.now) ≤ length out_values.old }
    ensures out_ids_after { out_ids.new ≡ put_if (not (eqb class 0)) 0 (ids_of 0 (widths stands.now ids.now offsets.now addresses.now)) out_ids.old }
    ensures out_offsets_after { out_offsets.new ≡ put_if (eqb class 2) 0 (0 ∷ totals_of 0 (widths stands.now ids.now offsets.now addresses.now)) out_offsets.old }
    ensures out_values_after { out_values.new ≡ put 0 (ordered_words to stands.now ids.now offsets.now values.now map.now addresses.now) out_values.old }
{
    put_part(class == 2, 1, 0, out_offsets, 0);
    let mut n = 0;
    let mut t = 0;
    let mut v = 0;
    for (j, &[s, row]) in addresses.iter().enumerate() {
        let p = stands::stand_at(stands, s as usize);
        let near = guess(p, row, work);
        let g = stands::range_in(p, ids, offsets, row, near);
        let w = g.end - g.start;
        v = column_values_merge::append_row(to, p, g, values, map, out_values, v);
        t += w;
        put_part(class != 0, w, j as u32, out_ids, n);
        put_part(class == 2, w, t as u32, out_offsets, n + 1);
        n += stands::one_if(w);
    }
}

// ---- rows of one word each

// Whether each row of the column has one word, which is copied as it stands: a Full column of no addresses (two words) and no ordinals (Bytes, Str), and nothing is made a double (F64).
#[tactic(auto, unfolding(crate::specs::Plain::is_plain, definitions::specs::Types::has_terms))]
fn is_plain(to: u32, p: Stand) -> bool
    ensures { result ≡ is_plain to p }
{
    match (p.kind, p.unit, p.typ) {
        (1, 1, 2) => true,
        (1, 1, 3 | 4) => false,
        (1, 1, _) => to != 2,
        _ => false,
    }
}

fn all_plain(to: u32, stands: &[StandNumbers]) -> bool
    ensures { result ≡ all_plain to stands.now }
{
    stands.iter().all(|&row| is_plain(to, Stand::from(row)))
}

// Each row's word: of such columns alone there is nothing else to look up.
fn write_plain(
    addresses: &[[u32; 2]],
    stands: &[StandNumbers],
    values: &[u64],
    out_values: &mut [u64],
)
    requires placed { Placed addresses.now stands.now values.now }
    requires addresses_in_bounds { length addresses.now ≤ length out_values.old }
    ensures { out_values.new ≡ put 0 (plain_words stands.now values.now addresses.now) out_values.old }
{
    for (j, &[s, row]) in addresses.iter().enumerate() {
        let p = stands::stand_at(stands, s as usize);
        out_values[j] = values[p.values.from + row as usize];
    }
}

// ---- an ordered join

// Row ids, offsets and values of the addressed rows. The working bytes hold guesses at ranks meanwhile.
#[tactic(auto, unfolding(runs::specs::Put::put_if))]
pub fn ordered_rows(
    class: u32,
    to: u32,
    addresses: &[[u32; 2]],
    stands: &[StandNumbers],
    ids: &[u32],
    offsets: &[u32],
    values: &[u64],
    map: &[u32],
    work: &mut [u8],
    out_ids: &mut [u32],
    out_offsets: &mut [u32],
    out_values: &mut [u64],
)
    requires ordered { Ordered addresses.now stands.now ids.now offsets.now values.now map.now }
    requires room_if { RoomIf (not (eqb class 0)) 0 (length (ids_of 0 (widths stands.now ids.now offsets.now addresses.now))) (length out_ids.old) }
    requires room_if_2 { RoomIf (eqb class 2) 0 (length (0 ∷ totals_of 0 (widths stands.now ids.now offsets.now addresses.now))) (length out_offsets.old) }
    requires addresses_in_bounds { length (ordered_words to stands.now ids.now offsets.now values.now map.now addresses.now) ≤ length out_values.old }
    ensures out_ids_after { out_ids.new ≡ put_if (not (eqb class 0)) 0 (ids_of 0 (widths stands.now ids.now offsets.now addresses.now)) out_ids.old }
    ensures out_offsets_after { out_offsets.new ≡ put_if (eqb class 2) 0 (0 ∷ totals_of 0 (widths stands.now ids.now offsets.now addresses.now)) out_offsets.old }
    ensures out_values_after { out_values.new ≡ put 0 (ordered_words to stands.now ids.now offsets.now values.now map.now addresses.now) out_values.old }
    ensures work_after { work.new ≡ replicate (length work.old) 0 }
{
    if class == 0 && all_plain(to, stands) {
        write_plain(addresses, stands, values, out_values);
    } else {
        let n = if ids.is_empty() { 0 } else { work.len() };
        fill_guesses(stands, ids, &mut work[..n]);
        write_rows(
            class,
            to,
            addresses,
            stands,
            ids,
            offsets,
            values,
            map,
            &work[..n],
            out_ids,
            out_offsets,
            out_values,
        );
    }
    work.fill(0);
}
