// The joiner: columnar/merge/mod.rs (`merge_columnar` for one column name).
#![tactic(auto)]

ghost use Rattle.segment.specs.Records.{records_of};
ghost use Rattle.merge.specs.Whole.{JoinKept, buffers_of, lent_in};

pub use merge_checked::Numbers;
use refusal::Refusal;

// The join of one column's segments: stacked (mode 0) or as the addresses say (mode 1), to the required type (255 for none). The answer with its numbers, and
// all that is left in the lent memory, are `join_outcome`'s (`JoinKept`).
pub fn join(
    mode: u32,
    required: u32,
    records: &[segment::RecordNumbers],
    sections: &segment::Sections,
    addresses: &[[u32; 2]],
    work: &mut [u8],
    out_ids: &mut [u32],
    out_offsets: &mut [u32],
    out_values: &mut [u64],
    out_lengths: &mut [u32],
    out_bytes: &mut [u8],
    out_map: &mut [u32],
) -> Result<Numbers, Refusal>
    ensures { JoinKept (lent_in mode required (records_of records.now) sections.now addresses.now (buffers_of out_ids.old out_offsets.old out_values.old out_lengths.old out_bytes.old out_map.old work.old)) result (buffers_of out_ids.new out_offsets.new out_values.new out_lengths.new out_bytes.new out_map.new work.new) }
{
    verdict::verdict(mode, required, records, sections, addresses, work)?;
    merge_checked::join_checked(
        mode,
        required,
        records,
        sections,
        addresses,
        work,
        out_ids,
        out_offsets,
        out_values,
        out_lengths,
        out_bytes,
        out_map,
    )
}
