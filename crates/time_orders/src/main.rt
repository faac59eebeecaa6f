// Time orders of stored random cases, against Python's sort: tools/time_orders.py says what standard input and the expected output hold and how they were
// made. All numbers are hexadecimal.
#![tactic(auto)]

use case_text::Reader;
use refusal::Refusal;
use segment::Sections;

fn show_number(n: u32) {
    io::write_all(1, b" ");
    io::print_hex(1, u64::from(n), 1);
}

fn end_line() {
    io::write_all(1, b"\n");
}

fn show_pairs(out: &[[u32; 2]]) {
    for &[segment, row] in out {
        show_number(segment);
        show_number(row);
    }
}

fn show_answer(answer: Result<usize, Refusal>) {
    match answer {
        Ok(n) => {
            io::write_all(1, b"0 ");
            io::print_hex(1, n as u64, 1);
        }
        Err(refusal) => {
            let number = u32::from(refusal);
            io::print_hex(1, u64::from(number), 1);
            io::write_all(1, b" 0");
        }
    }
}

// Reads a case, and prints its answer and the whole output.
fn show_case(reader: &mut Reader) {
    let mut records = [[0u32; segment::WIDTH]; 260];
    let mut ids = [0u32; 80];
    let mut offsets = [0u32; 80];
    let mut values = [0u64; 80];
    let mut lengths = [0u32; 8];
    let mut bytes = [0u8; 8];
    let mut alive = [0u64; 16];
    let mut out = [[u32::MAX; 2]; 96];
    let rc = reader.list(&mut records);
    let ic = reader.list(&mut ids);
    let oc = reader.list(&mut offsets);
    let vc = reader.list(&mut values);
    let lc = reader.list(&mut lengths);
    let bc = reader.list(&mut bytes);
    let ac = reader.list(&mut alive);
    let space = reader.count(96);
    let sections = Sections {
        ids: &ids[..ic],
        offsets: &offsets[..oc],
        values: &values[..vc],
        lengths: &lengths[..lc],
        bytes: &bytes[..bc],
        alive: &alive[..ac],
    };
    let answer = time_order::time_order(&records[..rc], &sections, &mut out[..space]);
    show_answer(answer);
    show_pairs(&out[..space]);
    end_line();
}

fn main() {
    let mut buf = [0u8; 131072];
    let n = io::read_full(0, &mut buf);
    let mut reader = Reader { rest: &buf[..n] };
    for _ in 0..reader.count(4096) {
        show_case(&mut reader);
    }
}
