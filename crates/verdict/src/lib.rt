// The first of the checks up to 9 that fails: what can be said of an input before its column is measured (columnar/merge/mod.rs; asserts become answers).
#![tactic(auto)]

ghost use Rattle.std.specs.Prelude.{◌≡◌, length, replicate};
ghost use Rattle.segment.specs.Lent.{input_in};
ghost use Rattle.refusal.specs.Number.{answer_number};
ghost use Rattle.verdict.specs.Nine.{answer_to_nine};

use refusal::Refusal;

// The first of the checks up to 9 that fails. work is zero on return, whichever the answer.
pub fn verdict(
    mode: u32,
    required: u32,
    records: &[segment::RecordNumbers],
    sections: &segment::Sections,
    addresses: &[[u32; 2]],
    work: &mut [u8],
) -> Result<(), Refusal>
    ensures value { answer_number result ≡ answer_to_nine (input_in mode required records.now sections.now addresses.now (length work.old)) }
    ensures work_after { work.new ≡ replicate (length work.old) 0 }
{
    runs::zero(work);
    sections_fit::first_to_seven(mode, required, records, sections)?;
    let t = sections_fit::totals_of(records);
    if !merge_mapping::room_enough(mode, t.rows, sections.lengths.len(), work.len()) {
        return Err(Refusal::WorkingSpace);
    }
    if !merge_mapping::addresses_fit(mode, records, sections.alive, addresses, t.rows, work) {
        return Err(Refusal::Addresses);
    }
    Ok(())
}
