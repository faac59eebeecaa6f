// Stored cases through `merge::join`, `time_order::time_order`, `convert::convert` and the calls of `withdraw`: the answer of each with its numbers, and all that
// stands in the lent memory afterwards. Every element is 9 before a call, so what stands beyond a list is 9, and so is everything after a refusal but the working bytes.
// cases.txt has the cases and what is expected of them, written from documents 01 and 02; tools/cases.py makes standard input and the expected output of it,
// and says in what order a case is stored. Each list has place for 300 elements, a name for 100 bytes.
#![tactic(auto)]

ghost use Rattle.std.specs.Prelude.{ℕ, List, replicate};
ghost use Rattle.case_text.specs.Counts.{Counts};

use case_text::{Element, Reader};
use refusal::Refusal;
use segment::{RecordNumbers, Sections};

// Which entry is called, as the number that a case begins with.
#[derive(Clone, Copy)]
enum Entry {
    Join,
    TimeOrder,
    Convert,
    Withdraw,
    Reinstate,
    WithdrawRows,
    ReinstateRows,
}

impl Entry {
    fn of(n: u64) -> Entry {
        match n {
            0 => Entry::Join,
            1 => Entry::TimeOrder,
            2 => Entry::Convert,
            3 => Entry::Withdraw,
            4 => Entry::Reinstate,
            5 => Entry::WithdrawRows,
            _ => Entry::ReinstateRows,
        }
    }

    // Whether it withdraws or reinstates.
    fn marks(self) -> bool {
        !matches!(self, Entry::Join | Entry::TimeOrder | Entry::Convert)
    }
}

// An entry, and the numbers that only a join takes.
#[derive(Clone, Copy)]
struct Call {
    entry: Entry,
    mode: u32,
    required: u32,
}

// ---- what a call gives and leaves

fn put_accepted(n: merge::Numbers) {
    case_lines::put_named(b" 0, type", n.typ as u64);
    case_lines::put_named(b", class", n.class as u64);
    case_lines::put_named(b", rows", n.rows as u64);
    case_lines::put_named(b", elements", n.ids as u64);
    case_lines::put(n.offsets as u64);
    case_lines::put(n.values as u64);
    case_lines::put(n.terms as u64);
    case_lines::put(n.bytes as u64);
    case_lines::put(n.map as u64);
    case_lines::put_named(b", copied", n.copied as u64);
    case_lines::put_named(b", pair", n.least);
    case_lines::put(n.greatest);
}

fn put_refused(refusal: Refusal) {
    let number = u32::from(refusal);
    case_lines::put(u64::from(number));
}

fn put_answer(answer: Result<merge::Numbers, Refusal>) {
    match answer {
        Ok(n) => put_accepted(n),
        Err(refusal) => put_refused(refusal),
    }
    case_lines::end_line();
}

fn put_times(answer: Result<usize, Refusal>) {
    match answer {
        Ok(n) => case_lines::put_named(b" 0, addresses", n as u64),
        Err(refusal) => put_refused(refusal),
    }
    case_lines::end_line();
}

fn put_record(name: &[u8], r: segment::Record) {
    case_lines::put_named(name, r.typ as u64);
    case_lines::put(r.kind as u64);
    case_lines::put(r.rows as u64);
    case_lines::put(r.ids as u64);
    case_lines::put(r.offsets as u64);
    case_lines::put(r.values as u64);
    case_lines::put(r.terms as u64);
    case_lines::put(r.flag as u64);
    case_lines::put(r.alive as u64);
    case_lines::put(r.least);
    case_lines::put(r.greatest);
}

fn put_converted(answer: Result<segment::Record, Refusal>) {
    match answer {
        Ok(r) => put_record(b" 0, record", r),
        Err(refusal) => put_refused(refusal),
    }
    case_lines::end_line();
}

fn put_marked(answer: Result<u32, Refusal>) {
    match answer {
        Ok(n) => case_lines::put_named(b" 0, changed", u64::from(n)),
        Err(refusal) => put_refused(refusal),
    }
    case_lines::end_line();
}

fn put_join(
    answer: Result<merge::Numbers, Refusal>,
    ids: &[u32],
    offsets: &[u32],
    values: &[u64],
    lengths: &[u32],
    bytes: &[u8],
    map: &[u32],
    work: &[u8],
) {
    put_answer(answer);
    case_lines::put_list(b"  ids", ids);
    case_lines::put_list(b"  offsets", offsets);
    case_lines::put_list(b"  values", values);
    case_lines::put_list(b"  term lengths", lengths);
    case_lines::put_list(b"  term bytes", bytes);
    case_lines::put_list(b"  map", map);
    case_lines::put_list(b"  working", work);
}

// ---- a case

// The number of elements that a case lends of an output.
fn room(reader: &mut Reader) -> usize
    ensures counts { Counts {A = ℕ} result (replicate 300 9) }
    ensures counts_2 { Counts {A = List ℕ} result (replicate 300 (replicate 2 9)) }
{
    reader.count(300)
}

fn join_case(
    reader: &mut Reader,
    mode: u32,
    required: u32,
    records: &[RecordNumbers],
    sections: &Sections,
    addresses: &[[u32; 2]],
) {
    let wc = room(reader);
    let ic = room(reader);
    let oc = room(reader);
    let vc = room(reader);
    let lc = room(reader);
    let bc = room(reader);
    let mc = room(reader);
    let mut work_memory = [9u8; 300];
    let mut ids_memory = [9u32; 300];
    let mut offsets_memory = [9u32; 300];
    let mut values_memory = [9u64; 300];
    let mut lengths_memory = [9u32; 300];
    let mut bytes_memory = [9u8; 300];
    let mut map_memory = [9u32; 300];
    let work = &mut work_memory[..wc];
    let out_ids = &mut ids_memory[..ic];
    let out_offsets = &mut offsets_memory[..oc];
    let out_values = &mut values_memory[..vc];
    let out_lengths = &mut lengths_memory[..lc];
    let out_bytes = &mut bytes_memory[..bc];
    let out_map = &mut map_memory[..mc];
    let answer = merge::join(
        mode,
        required,
        records,
        sections,
        addresses,
        work,
        out_ids,
        out_offsets,
        out_values,
        out_lengths,
        out_bytes,
        out_map,
    );
    put_join(
        answer,
        out_ids,
        out_offsets,
        out_values,
        out_lengths,
        out_bytes,
        out_map,
        work,
    );
}

fn time_case(reader: &mut Reader, records: &[RecordNumbers], sections: &Sections) {
    let n = room(reader);
    let mut memory = [[9u32; 2]; 300];
    let out = &mut memory[..n];
    let answer = time_order::time_order(records, sections, out);
    put_times(answer);
    case_lines::put_addresses(b"  addresses", out);
}

// The first record alone, where there is one.
fn convert_case(reader: &mut Reader, records: &[RecordNumbers], sections: &Sections) {
    let ic = room(reader);
    let oc = room(reader);
    let mut ids_memory = [9u32; 300];
    let mut offsets_memory = [9u32; 300];
    let out_ids = &mut ids_memory[..ic];
    let out_offsets = &mut offsets_memory[..oc];
    if let [first, ..] = records {
        let r = segment::Record::from(*first);
        let answer = convert::convert(r, sections, out_ids, out_offsets);
        put_converted(answer);
        case_lines::put_list(b"  ids", out_ids);
        case_lines::put_list(b"  offsets", out_offsets);
    }
}

// The calls of one row are for cases that name one.
fn mark(
    entry: Entry,
    record: &mut RecordNumbers,
    alive: &mut [u64],
    rows: &[u32],
) -> Result<u32, Refusal> {
    match (entry, rows) {
        (Entry::Withdraw, [row, ..]) => withdraw::withdraw(record, alive, *row),
        (Entry::Reinstate, [row, ..]) => withdraw::reinstate(record, alive, *row),
        (Entry::WithdrawRows, _) => withdraw::withdraw_rows(record, alive, rows),
        _ => withdraw::reinstate_rows(record, alive, rows),
    }
}

// The first record alone, where there is one.
fn mark_case(reader: &mut Reader, entry: Entry, records: &[RecordNumbers], alive: &mut [u64]) {
    let mut rows = [0u32; 300];
    let n = reader.list(&mut rows);
    if let [first, ..] = records {
        let mut record = *first;
        let answer = mark(entry, &mut record, alive, &rows[..n]);
        put_marked(answer);
        put_record(b"  record", segment::Record::from(record));
        case_lines::end_line();
        case_lines::put_list(b"  alive", alive);
    }
}

fn run(
    reader: &mut Reader,
    call: Call,
    records: &[RecordNumbers],
    sections: &Sections,
    addresses: &[[u32; 2]],
) {
    match call.entry {
        Entry::TimeOrder => time_case(reader, records, sections),
        Entry::Convert => convert_case(reader, records, sections),
        _ => join_case(
            reader,
            call.mode,
            call.required,
            records,
            sections,
            addresses,
        ),
    }
}

// Begins a case's first line with its name.
fn show_name(reader: &mut Reader) {
    let mut name = [0u8; 100];
    let n = reader.list(&mut name);
    io::write_all(1, &name[..n]);
    io::write_all(1, b": answer");
}

fn read_call(reader: &mut Reader) -> Call {
    let entry = Entry::of(reader.number());
    let mode = u32::read(reader);
    let required = u32::read(reader);
    Call {
        entry,
        mode,
        required,
    }
}

// Prints a case's name and what it gives and leaves.
fn show_case(reader: &mut Reader) {
    let mut records = [[0u32; segment::WIDTH]; 300];
    let mut ids = [0u32; 300];
    let mut offsets = [0u32; 300];
    let mut values = [0u64; 300];
    let mut lengths = [0u32; 300];
    let mut bytes = [0u8; 300];
    let mut alive = [0u64; 300];
    let mut addresses = [[0u32; 2]; 300];
    show_name(reader);
    let call = read_call(reader);
    let rc = reader.list(&mut records);
    let ic = reader.list(&mut ids);
    let oc = reader.list(&mut offsets);
    let vc = reader.list(&mut values);
    let lc = reader.list(&mut lengths);
    let bc = reader.list(&mut bytes);
    let wc = reader.list(&mut alive);
    let ac = reader.list(&mut addresses);
    if call.entry.marks() {
        mark_case(reader, call.entry, &records[..rc], &mut alive[..wc]);
        return;
    }
    let sections = Sections {
        ids: &ids[..ic],
        offsets: &offsets[..oc],
        values: &values[..vc],
        lengths: &lengths[..lc],
        bytes: &bytes[..bc],
        alive: &alive[..wc],
    };
    run(reader, call, &records[..rc], &sections, &addresses[..ac]);
}

fn main() {
    let mut buf = io::large_buffer();
    let n = io::read_full(0, &mut buf);
    let mut reader = Reader { rest: &buf[..n] };
    for _ in 0..reader.count(4096) {
        show_case(&mut reader);
    }
}
