// Lines of numbers on standard output: a list after its name, each number after a space, in decimal.
#![tactic(auto)]

pub fn put(x: u64) {
    io::write_all(1, b" ");
    io::print_decimal(1, x);
}

pub fn put_named(name: &[u8], x: u64) {
    io::write_all(1, name);
    put(x);
}

pub fn end_line() {
    io::write_all(1, b"\n");
}

pub fn put_list<T: Copy + Into<u64>>(name: &[u8], xs: &[T]) {
    io::write_all(1, name);
    for &x in xs {
        put(x.into());
    }
    end_line();
}

// Segment and row, with a comma between them.
pub fn put_addresses(name: &[u8], xs: &[[u32; 2]]) {
    io::write_all(1, name);
    for &[segment, row] in xs {
        put(u64::from(segment));
        io::write_all(1, b",");
        io::print_decimal(1, u64::from(row));
    }
    end_line();
}
