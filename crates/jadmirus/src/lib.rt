// The joiner, the time order, the converter, the two calls on the alive set, and a column's least and greatest value for callers in C or Rust: a run of numbers is handed over as a pointer and its length.
// Those callers link the static library of `jadmirus_c`, whose exports, of the same names, call these; a library exports nothing itself.
#![tactic(auto)]

ghost use Rattle.std.specs.Prelude.{◌≡◌, [], ◌∷◌, length};
ghost use Rattle.definitions.specs.Outcome.{number_of, join_outcome, lent_of};
ghost use Rattle.definitions.specs.Types.{pair_of};
ghost use Rattle.definitions.specs.TimeOrder.{time_number_of, time_outcome};
ghost use Rattle.definitions.specs.Convert.{convert_number_of, convert_outcome};
ghost use Rattle.definitions.specs.Withdraw.{withdrawing, reinstating, mark_number_of, mark_outcome};
ghost use Rattle.merge.specs.Whole.{buffers_of};
ghost use Rattle.segment.specs.Records.{row_record, records_of};
ghost use Rattle.segment.specs.Lent.{addresses_of};
ghost use Rattle.time_checks.specs.Lent.{lent_times};
ghost use Rattle.time_order.specs.Outcome.{output_of};
ghost use Rattle.convert.specs.Outcome.{lent_convert};
ghost use Rattle.withdraw.specs.Lent.{lent_set, answer_of, record_left};
ghost use Rattle.jadmirus.specs.Told.{pair_listed, list_of, numbers_after, count_after, record_after, changes_after};

use refusal::Refusal;

// The twelve numbers of an acceptance in their order.
fn numbers_of(n: merge::Numbers) -> [u64; 12]
    ensures { result ≡ list_of n }
{
    [
        n.typ as u64,
        n.class as u64,
        n.rows as u64,
        n.ids as u64,
        n.offsets as u64,
        n.values as u64,
        n.terms as u64,
        n.bytes as u64,
        n.map as u64,
        n.copied as u64,
        n.least,
        n.greatest,
    ]
}

// Returns the answer's number. The numbers that come with acceptance are written to `out_numbers`, which a refusal leaves as it was.
#[unsafe(no_mangle)]
pub extern "C" fn jadmirus_join(
    mode: u32,
    required: u32,
    records: &[segment::RecordNumbers],
    ids: &[u32],
    offsets: &[u32],
    values: &[u64],
    lengths: &[u32],
    bytes: &[u8],
    alive: &[u64],
    addresses: &[[u32; 2]],
    work: &mut [u8],
    out_ids: &mut [u32],
    out_offsets: &mut [u32],
    out_values: &mut [u64],
    out_lengths: &mut [u32],
    out_bytes: &mut [u8],
    out_map: &mut [u32],
    out_numbers: &mut [u64; 12],
) -> u32
    ensures value { result ≡ number_of (join_outcome (lent_of mode required (records_of records.now) ids.now offsets.now values.now lengths.now bytes.now alive.now addresses.now (buffers_of out_ids.old out_offsets.old out_values.old out_lengths.old out_bytes.old out_map.old work.old))).answer }
    ensures work_after { buffers_of out_ids.new out_offsets.new out_values.new out_lengths.new out_bytes.new out_map.new work.new ≡ (join_outcome (lent_of mode required (records_of records.now) ids.now offsets.now values.now lengths.now bytes.now alive.now addresses.now (buffers_of out_ids.old out_offsets.old out_values.old out_lengths.old out_bytes.old out_map.old work.old))).buffers }
    ensures out_numbers_after { out_numbers.new ≡ numbers_after (join_outcome (lent_of mode required (records_of records.now) ids.now offsets.now values.now lengths.now bytes.now alive.now addresses.now (buffers_of out_ids.old out_offsets.old out_values.old out_lengths.old out_bytes.old out_map.old work.old))).answer out_numbers.old }
{
    let sections = segment::Sections {
        ids,
        offsets,
        values,
        lengths,
        bytes,
        alive,
    };
    match merge::join(
        mode,
        required,
        records,
        &sections,
        addresses,
        work,
        out_ids,
        out_offsets,
        out_values,
        out_lengths,
        out_bytes,
        out_map,
    ) {
        Err(refused) => u32::from(refused),
        Ok(n) => {
            *out_numbers = numbers_of(n);
            0
        }
    }
}

// Returns the answer's number. The number of addresses that comes with acceptance is written to `out_count`, which a refusal leaves as it was.
#[unsafe(no_mangle)]
pub extern "C" fn jadmirus_time_order(
    records: &[segment::RecordNumbers],
    ids: &[u32],
    offsets: &[u32],
    values: &[u64],
    lengths: &[u32],
    bytes: &[u8],
    alive: &[u64],
    out_addresses: &mut [[u32; 2]],
    out_count: &mut [u64; 1],
) -> u32
    ensures value { result ≡ time_number_of (time_outcome (lent_times records.now ids.now offsets.now values.now lengths.now bytes.now alive.now (length out_addresses.old)) (addresses_of out_addresses.old)).answer }
    ensures out_addresses_after { out_addresses.new ≡ output_of (lent_times records.now ids.now offsets.now values.now lengths.now bytes.now alive.now (length out_addresses.old)) out_addresses.old }
    ensures out_addresses_after_2 { addresses_of out_addresses.new ≡ (time_outcome (lent_times records.now ids.now offsets.now values.now lengths.now bytes.now alive.now (length out_addresses.old)) (addresses_of out_addresses.old)).addresses }
    ensures out_count_after { out_count.new ≡ count_after (time_outcome (lent_times records.now ids.now offsets.now values.now lengths.now bytes.now alive.now (length out_addresses.old)) (addresses_of out_addresses.old)).answer out_count.old }
{
    let sections = segment::Sections {
        ids,
        offsets,
        values,
        lengths,
        bytes,
        alive,
    };
    match time_order::time_order(records, &sections, out_addresses) {
        Err(refusal) => u32::from(refusal),
        Ok(n) => {
            *out_count = [n as u64];
            0
        }
    }
}

// Returns the answer's number. The new record that comes with acceptance is written to `out_record`, which a refusal leaves as it was.
#[unsafe(no_mangle)]
pub extern "C" fn jadmirus_convert(
    record: &segment::RecordNumbers,
    ids: &[u32],
    offsets: &[u32],
    values: &[u64],
    lengths: &[u32],
    bytes: &[u8],
    alive: &[u64],
    out_ids: &mut [u32],
    out_offsets: &mut [u32],
    out_record: &mut segment::RecordNumbers,
) -> u32
    ensures value { result ≡ convert_number_of (convert_outcome (lent_convert (row_record «record».now) ids.now offsets.now values.now lengths.now bytes.now alive.now (length out_ids.old) (length out_offsets.old)) out_ids.old out_offsets.old).answer }
    ensures out_ids_after { out_ids.new ≡ (convert_outcome (lent_convert (row_record «record».now) ids.now offsets.now values.now lengths.now bytes.now alive.now (length out_ids.old) (length out_offsets.old)) out_ids.old out_offsets.old).ids }
    ensures out_offsets_after { out_offsets.new ≡ (convert_outcome (lent_convert (row_record «record».now) ids.now offsets.now values.now lengths.now bytes.now alive.now (length out_ids.old) (length out_offsets.old)) out_ids.old out_offsets.old).offsets }
    ensures out_record_after { out_record.new ≡ record_after (convert_outcome (lent_convert (row_record «record».now) ids.now offsets.now values.now lengths.now bytes.now alive.now (length out_ids.old) (length out_offsets.old)) out_ids.old out_offsets.old).answer out_record.old }
{
    let sections = segment::Sections {
        ids,
        offsets,
        values,
        lengths,
        bytes,
        alive,
    };
    let r = segment::Record::from(*record);
    match convert::convert(r, &sections, out_ids, out_offsets) {
        Err(refusal) => u32::from(refusal),
        Ok(n) => {
            *out_record = n.into();
            0
        }
    }
}

// The answer's number; how many rows changed is written to `out_changed`, which a refusal leaves as it was.
fn tell(a: Result<u32, Refusal>, out_changed: &mut [u64; 1]) -> u32
    ensures value { result ≡ mark_number_of (answer_of a) }
    ensures out_changed_after { out_changed.new ≡ changes_after (answer_of a) out_changed.old }
{
    match a {
        Err(refusal) => u32::from(refusal),
        Ok(n) => {
            *out_changed = [n as u64];
            0
        }
    }
}

// Returns the answer's number. How many rows changed is written to `out_changed`, which a refusal leaves as it was, and the record and the alive words too.
#[unsafe(no_mangle)]
pub extern "C" fn jadmirus_withdraw(
    record: &mut segment::RecordNumbers,
    alive: &mut [u64],
    row: u32,
    out_changed: &mut [u64; 1],
) -> u32
    ensures value { result ≡ mark_number_of (mark_outcome (withdrawing (row ∷ [])) (lent_set «record».old alive.old)).answer }
    ensures alive_after { lent_set «record».new alive.new ≡ (mark_outcome (withdrawing (row ∷ [])) (lent_set «record».old alive.old)).left }
    ensures record_after { «record».new ≡ record_left (mark_outcome (withdrawing (row ∷ [])) (lent_set «record».old alive.old)) «record».old }
    ensures out_changed_after { out_changed.new ≡ changes_after (mark_outcome (withdrawing (row ∷ [])) (lent_set «record».old alive.old)).answer out_changed.old }
{
    tell(withdraw::withdraw(record, alive, row), out_changed)
}

// As `jadmirus_withdraw`, the other way.
#[unsafe(no_mangle)]
pub extern "C" fn jadmirus_reinstate(
    record: &mut segment::RecordNumbers,
    alive: &mut [u64],
    row: u32,
    out_changed: &mut [u64; 1],
) -> u32
    ensures value { result ≡ mark_number_of (mark_outcome (reinstating (row ∷ [])) (lent_set «record».old alive.old)).answer }
    ensures alive_after { lent_set «record».new alive.new ≡ (mark_outcome (reinstating (row ∷ [])) (lent_set «record».old alive.old)).left }
    ensures record_after { «record».new ≡ record_left (mark_outcome (reinstating (row ∷ [])) (lent_set «record».old alive.old)) «record».old }
    ensures out_changed_after { out_changed.new ≡ changes_after (mark_outcome (reinstating (row ∷ [])) (lent_set «record».old alive.old)).answer out_changed.old }
{
    tell(withdraw::reinstate(record, alive, row), out_changed)
}

// As `jadmirus_withdraw`, of a run of rows: all of them or none.
#[unsafe(no_mangle)]
pub extern "C" fn jadmirus_withdraw_rows(
    record: &mut segment::RecordNumbers,
    alive: &mut [u64],
    rows: &[u32],
    out_changed: &mut [u64; 1],
) -> u32
    ensures value { result ≡ mark_number_of (mark_outcome (withdrawing rows.now) (lent_set «record».old alive.old)).answer }
    ensures alive_after { lent_set «record».new alive.new ≡ (mark_outcome (withdrawing rows.now) (lent_set «record».old alive.old)).left }
    ensures record_after { «record».new ≡ record_left (mark_outcome (withdrawing rows.now) (lent_set «record».old alive.old)) «record».old }
    ensures out_changed_after { out_changed.new ≡ changes_after (mark_outcome (withdrawing rows.now) (lent_set «record».old alive.old)).answer out_changed.old }
{
    tell(withdraw::withdraw_rows(record, alive, rows), out_changed)
}

// As `jadmirus_reinstate`, of a run of rows: all of them or none.
#[unsafe(no_mangle)]
pub extern "C" fn jadmirus_reinstate_rows(
    record: &mut segment::RecordNumbers,
    alive: &mut [u64],
    rows: &[u32],
    out_changed: &mut [u64; 1],
) -> u32
    ensures value { result ≡ mark_number_of (mark_outcome (reinstating rows.now) (lent_set «record».old alive.old)).answer }
    ensures alive_after { lent_set «record».new alive.new ≡ (mark_outcome (reinstating rows.now) (lent_set «record».old alive.old)).left }
    ensures record_after { «record».new ≡ record_left (mark_outcome (reinstating rows.now) (lent_set «record».old alive.old)) «record».old }
    ensures out_changed_after { out_changed.new ≡ changes_after (mark_outcome (reinstating rows.now) (lent_set «record».old alive.old)).answer out_changed.old }
{
    tell(withdraw::reinstate_rows(record, alive, rows), out_changed)
}

// The least and the greatest of a column's values, as its record holds them: for callers that make a record.
#[unsafe(no_mangle)]
pub extern "C" fn jadmirus_pair(typ: u32, values: &[u64], out_pair: &mut [u64; 2])
    ensures { out_pair.new ≡ pair_listed (pair_of typ values.now) }
{
    let p: min_max::Range = min_max::pair_of(typ, values);
    *out_pair = [p.least, p.greatest];
}
