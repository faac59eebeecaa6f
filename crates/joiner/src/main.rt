// The joining program: reads the sections from standard input, writes the listing to standard output (document 01, "Answers of the joiner").
#![tactic(auto)]

fn main() {
    let mut input = reply::input_buffer();
    let mut out = reply::output_buffer();
    let n = io::read_full(0, &mut input);
    let k = reply::answer_input(&input, n, &mut out);
    io::write_all(1, &out[..k]);
}
