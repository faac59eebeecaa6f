// The joining program on many inputs in one run: each is a 64-bit length, the lowest byte first, and so many bytes. The listings follow one another.
#![tactic(auto)]

ghost use Rattle.std.specs.Prelude.{◌≡◌, ◌≤◌, length};

// Place for all inputs. As a function, since a longer array literal in main costs the checker its stack.
fn input_buffer() -> [u8; 262144]
    ensures { 262144 ≡ length result }
{
    [0; 262144]
}

// An input that is cut is not answered, nor is what follows.
fn answer_all(inputs: &[u8], out: &mut [u8])
    requires { 786432 ≤ length out.old }
{
    let mut left = inputs;
    while left.len() >= 8 {
        let (head, rest) = left.split_at(8);
        let n = wire::word_at(head, 0) as usize;
        if rest.len() < n {
            return;
        }
        let (input, after) = rest.split_at(n);
        let k = reply::reply(input, out);
        io::write_all(1, &out[..k]);
        left = after;
    }
}

fn main() {
    let mut inputs = input_buffer();
    let mut out = reply::output_buffer();
    let n = io::read_full(0, &mut inputs);
    answer_all(&inputs[..n], &mut out);
}
