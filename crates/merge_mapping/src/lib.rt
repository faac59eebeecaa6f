// The row order that addresses give, with the checks 8 and 9 (columnar/merge/merge_mapping.rs: `StackMergeOrder::stack` and `offset`, `ShuffleMergeOrder`).
#![tactic(auto)]

ghost use Rattle.std.specs.Prelude.{◌≡◌, true, ◌&&◌, cond, ◌<◌, ◌≤◌, ◌+◌, ◌*◌, ◌^◌, length, replicate, ltb};
ghost use Rattle.definitions.specs.Lists.{all_below};
ghost use Rattle.definitions.specs.Segment.{address};
ghost use Rattle.definitions.specs.Answer.{lists_alive_rows};
ghost use Rattle.segment.specs.Records.{records_of};
ghost use Rattle.segment.specs.Lent.{addresses_of};
ghost use Rattle.runs.specs.Put.{put};
ghost use Rattle.merge_mapping.specs.Mapping.{alive_byte, alive_bytes, laid_out, AllWorded, Room, is_left, without, takes, left_by, segments_by, Blank, addresses_right, BeforeNine, room_enough};

// ---- a bit for each alive row, eight rows to a working byte

// Byte i of a segment's alive bits: eight bits of the alive set, or ones for the rows there are.
#[tactic(auto, unfolding(crate::specs::Mapping::alive_byte))]
fn alive_byte(flag: usize, words: &[u64], rows: usize, i: usize) -> u8
    requires rows_bound { flag ≡ 1 → rows ≤ 64 * length words.now }
    requires i_bound { 8 * i < rows }
    requires rows_bound_2 { rows ≤ 9223372036854775807 }
    ensures { result ≡ alive_byte flag words.now rows i }
{
    if flag == 1 {
        ((words[i / 8] >> (8 * (i % 8))) % 256) as u8
    } else {
        255 >> (8 * i + 8).saturating_sub(rows)
    }
}

// Lays out a segment's alive bits from index at on.
fn fill_bits(flag: usize, words: &[u64], rows: usize, bits: &mut [u8], at: usize)
    requires rows_bound { flag ≡ 1 → rows ≤ 64 * length words.now }
    requires rows_in_bounds { at + rows ≤ length bits.old }
    ensures { bits.new ≡ put at (alive_bytes flag words.now rows) bits.old }
{
    for i in 0..rows.div_ceil(8) {
        bits[at + i] = alive_byte(flag, words, rows, i);
    }
}

// Lays out all segments' alive bits.
fn fill_all(stands: &[stands::StandNumbers], alive: &[u64], bits: &mut [u8])
    requires all_worded { AllWorded stands.now alive.now }
    requires room { Room stands.now bits.old }
    ensures { bits.new ≡ laid_out stands.now alive.now bits.old (length stands.now) }
{
    for &numbers in stands {
        let p = stands::Stand::from(numbers);
        let words = &alive[p.alive.from..p.alive.to];
        fill_bits(p.flag, words, p.rows, bits, p.work);
    }
}

// ---- an address takes its row's bit

// Clears the row's bit; false where the segments have no such row, or where its bit is not set: a withdrawn row, or one that came before.
fn take_bit(stands: &[stands::StandNumbers], seg: usize, row: usize, bits: &mut [u8]) -> bool
    requires { Room stands.now bits.old }
    ensures value { result ≡ is_left stands.now bits.old (address seg row) }
    ensures bits_after { bits.new ≡ cond result (without stands.now bits.old (address seg row)) bits.old }
{
    if stands.len() <= seg {
        return false;
    }
    let p = stands::stand_at(stands, seg);
    if p.rows <= row {
        return false;
    }
    let at = p.work + row / 8;
    let b = row % 8;
    if (bits[at] >> b) % 2 != 1 {
        return false;
    }
    bits[at] -= 1 << b;
    true
}

// Takes the bit of each address, up to the first that has none: false there.
fn take_all(stands: &[stands::StandNumbers], addresses: &[[u32; 2]], bits: &mut [u8]) -> bool
    requires { Room stands.now bits.old }
    ensures value { result ≡ takes stands.now bits.old (addresses_of addresses.now) }
    ensures bits_after { bits.new ≡ left_by stands.now bits.old (addresses_of addresses.now) }
{
    for &[seg, row] in addresses {
        if !take_bit(stands, seg as usize, row as usize, bits) {
            return false;
        }
    }
    true
}

// Whether no bit is left. To the end in any case, so that many bytes are looked at together.
fn none_left(bits: &[u8]) -> bool
    ensures { result ≡ all_below 1 bits.now }
{
    let mut none = true;
    for &b in bits {
        none &= b == 0;
    }
    none
}

// ---- 9

// Whether each alive row is listed once and nothing else is. bits is zero at first, and again where the answer is yes.
fn each_once(
    records: &[segment::RecordNumbers],
    alive: &[u64],
    addresses: &[[u32; 2]],
    bits: &mut [u8],
) -> bool
    requires { Blank (records_of records.now) alive.now bits.old }
    ensures value { result ≡ lists_alive_rows (segments_by (records_of records.now) alive.now) (addresses_of addresses.now) }
    ensures bits_after { result ≡ true → bits.new ≡ replicate (length bits.old) 0 }
{
    let mut table = [[0; stands::NUMBERS]; 256];
    stands::fill_stands(records, &mut table);
    let stands = &table[..records.len()];
    fill_all(stands, alive, bits);
    take_all(stands, addresses, bits) && none_left(bits)
}

// Check 9. work is zero at first and again on return; only the bytes of the rows are written.
pub fn addresses_fit(
    mode: u32,
    records: &[segment::RecordNumbers],
    alive: &[u64],
    addresses: &[[u32; 2]],
    rows: usize,
    work: &mut [u8],
) -> bool
    requires { BeforeNine mode rows (records_of records.now) alive.now work.old }
    ensures value { result ≡ addresses_right mode (records_of records.now) alive.now (addresses_of addresses.now) }
    ensures work_after { work.new ≡ replicate (length work.old) 0 }
{
    if mode == 0 {
        return addresses.is_empty();
    }
    let fit = each_once(records, alive, addresses, &mut work[..rows]);
    if !fit {
        work[..rows].fill(0);
    }
    fit
}

// Check 8: an ordered join has a working byte for each row and each term.
#[tactic(auto, unfolding(crate::specs::Mapping::room_enough))]
pub fn room_enough(mode: u32, rows: usize, terms: usize, working: usize) -> bool
    requires rows_bound { rows ≤ 4294967294 }
    requires terms_bound { terms ≤ 9223372036854775807 }
    ensures { result ≡ room_enough mode rows terms working }
{
    mode != 1 || rows + terms <= working
}
