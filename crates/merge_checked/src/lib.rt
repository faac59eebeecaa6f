// The join of an input that has passed the checks up to 9 (columnar/merge/mod.rs, `merge_column`).
#![tactic(auto)]

ghost use Rattle.std.specs.Prelude.{◌≡◌};
ghost use Rattle.definitions.specs.Outcome.{join_outcome};
ghost use Rattle.segment.specs.Records.{records_of};
ghost use Rattle.merge_checked.specs.Call.{outcome_of, buffers_of, lent_in, AfterNine};

use refusal::Refusal;

// What comes with acceptance: type, class and rows, the number of elements of each list, an address being one, how many term bytes were copied, and the joined
// column's least and greatest value.
#[derive(Clone, Copy)]
pub struct Numbers {
    pub typ: u32,
    pub class: u32,
    pub rows: usize,
    pub ids: usize,
    pub offsets: usize,
    pub values: usize,
    pub terms: usize,
    pub bytes: usize,
    pub map: usize,
    pub copied: usize,
    pub least: u64,
    pub greatest: u64,
}

// The join of an input that has passed the checks up to 9, whose working bytes are zero.
pub fn join_checked(
    mode: u32,
    required: u32,
    records: &[segment::RecordNumbers],
    sections: &segment::Sections,
    addresses: &[[u32; 2]],
    work: &mut [u8],
    out_ids: &mut [u32],
    out_offsets: &mut [u32],
    out_values: &mut [u64],
    out_lengths: &mut [u32],
    out_bytes: &mut [u8],
    out_map: &mut [u32],
) -> Result<Numbers, Refusal>
    requires { AfterNine mode required records.now sections.now.ids.now sections.now.offsets.now sections.now.values.now sections.now.lengths.now sections.now.bytes.now sections.now.alive.now addresses.now work.old }
    ensures { outcome_of result (buffers_of out_ids.new out_offsets.new out_values.new out_lengths.new out_bytes.new out_map.new work.new) ≡ join_outcome (lent_in mode required (records_of records.now) sections.now addresses.now (buffers_of out_ids.old out_offsets.old out_values.old out_lengths.old out_bytes.old out_map.old work.old)) }
{
    let segment::Sections {
        ids,
        offsets,
        values,
        lengths,
        bytes,
        alive,
    } = *sections;
    let mut table = [[0usize; stands::NUMBERS]; 256];
    let stands = &mut table[..records.len()];
    let t = merge_column::prepare(records, ids, offsets, lengths, alive, stands);
    let space = merge_column::Space {
        ids: out_ids.len(),
        offsets: out_offsets.len(),
        values: out_values.len(),
        lengths: out_lengths.len(),
        bytes: out_bytes.len(),
        map: out_map.len(),
    };
    let x = merge_column::measure(mode, required, stands, addresses.len(), t, space)?;
    let c = merge_dict_column::fill_dictionary(
        mode,
        stands,
        ids,
        offsets,
        values,
        lengths,
        bytes,
        alive,
        work,
        out_lengths,
        out_bytes,
        out_map,
    );
    merge_column::fill_rows(
        mode,
        x.class,
        x.typ,
        addresses,
        stands,
        ids,
        offsets,
        values,
        out_map,
        work,
        out_ids,
        out_offsets,
        out_values,
    );
    let pair = merge_column::joined_pair(x.typ, stands, &out_values[..x.words]);
    Ok(Numbers {
        typ: x.typ,
        class: x.class,
        rows: x.rows,
        ids: x.ids,
        offsets: x.offsets,
        values: x.values,
        terms: c.terms,
        bytes: c.bytes,
        map: x.map,
        copied: c.copied,
        least: pair.least,
        greatest: pair.greatest,
    })
}
