// The joiner over a run of record structs (columnar/merge/mod.rs: `Vec<Option<..>>` of columns).
#![tactic(auto)]

ghost use Rattle.merge.specs.Whole.{JoinKept, buffers_of, lent_in};
ghost use Rattle.records.specs.Rows.{records_in};

use refusal::Refusal;

// The join of one column's segments, each by its record: `merge::join`, whose rows of numbers are made of the structs.
pub fn join_records(
    mode: u32,
    required: u32,
    records: &[segment::Record],
    sections: &segment::Sections,
    addresses: &[[u32; 2]],
    work: &mut [u8],
    out_ids: &mut [u32],
    out_offsets: &mut [u32],
    out_values: &mut [u64],
    out_lengths: &mut [u32],
    out_bytes: &mut [u8],
    out_map: &mut [u32],
) -> Result<merge::Numbers, Refusal>
    ensures { JoinKept (lent_in mode required (records_in records.now) sections.now addresses.now (buffers_of out_ids.old out_offsets.old out_values.old out_lengths.old out_bytes.old out_map.old work.old)) result (buffers_of out_ids.new out_offsets.new out_values.new out_lengths.new out_bytes.new out_map.new work.new) }
{
    let table = records::rows_of(records);
    let n = records::count_of(records.len());
    merge::join(
        mode,
        required,
        &table[..n],
        sections,
        addresses,
        work,
        out_ids,
        out_offsets,
        out_values,
        out_lengths,
        out_bytes,
        out_map,
    )
}
