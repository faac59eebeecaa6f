// The alive set of one segment: whether a row is alive, how many are, and a row's bit set or cleared.
#![tactic(auto)]

ghost use Rattle.std.specs.Prelude.{◌≡◌, ◌<◌, ◌≤◌, ◌*◌, ◌/◌, ◌%◌, length, true, false};
ghost use Rattle.definitions.specs.Row.{bit_at, set_bits};
ghost use Rattle.definitions.specs.Lists.{with_bit, without_bit};

// Whether the row's bit is set; row 0 is the lowest bit of the first word.
#[tactic(auto, using(std::proofs::lemmas::Nat::Bits::shr_and_one), unfolding(definitions::specs::Row::bit_at))]
pub fn is_alive(words: &[u64], row: usize) -> bool
    requires { row < 64 * length words.now }
    ensures { result ≡ bit_at words.now row }
{
    words[row / 64] >> (row % 64) & 1 == 1
}

// How many bits are set, by counting the ones of each word.
pub fn count_alive(words: &[u64]) -> usize
    requires { length words.now ≤ 67108864 }
    ensures { result ≡ set_bits words.now }
{
    words.iter().map(|w| w.count_ones() as usize).sum()
}

// Sets the row's bit, which is not set.
pub fn set_alive(words: &mut [u64], row: usize)
    requires row_bound { row < 64 * length words.old }
    requires row_value { bit_at words.old row ≡ false }
    ensures { words.new ≡ with_bit words.old (row / 64) (row % 64) }
{
    words[row / 64] |= 1 << (row % 64);
}

// Clears the row's bit, which is set.
pub fn clear_alive(words: &mut [u64], row: usize)
    requires row_bound { row < 64 * length words.old }
    requires row_value { bit_at words.old row ≡ true }
    ensures { words.new ≡ without_bit words.old (row / 64) (row % 64) }
{
    words[row / 64] &= !(1 << (row % 64));
}
