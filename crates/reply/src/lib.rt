// The joining program's reply: bytes read to bytes written, with the join in the middle. (Added: no file of the crate has it.)
#![tactic(auto)]

ghost use Rattle.std.specs.Prelude.{◌≡◌, suc, ◌≤◌, length, take};
ghost use Rattle.definitions.specs.Outcome.{accepted, join_outcome};
ghost use Rattle.segment.specs.Records.{records_of};
ghost use Rattle.definitions.specs.Wire.{most_bytes, word_sections, lent_from, program_buffers};
ghost use Rattle.definitions.specs.Listing.{answer_text, listing, reply as Listing·reply};
ghost use Rattle.io.specs.Counts.{IsPrefixLen};
ghost use Rattle.runs.specs.Put.{put};
ghost use Rattle.wire.specs.Bounds.{Fitted};
ghost use Rattle.listing.specs.Shown.{outputs, Announced, AnnouncedBy, Short};
ghost use Rattle.merge.specs.Whole.{numbers_in, answer_of, lent_in};
ghost use Rattle.reply.specs.Input.{zeros, Answers};

use refusal::Refusal;

// An accepted column, out of the output lists.
fn put_column(
    n: merge::Numbers,
    ids: &[u32],
    offsets: &[u32],
    values: &[u64],
    lengths: &[u32],
    bytes: &[u8],
    map: &[u32],
    out: &mut [u8],
) -> usize
    requires announced { Announced (numbers_in n) (outputs ids.now offsets.now values.now lengths.now bytes.now map.now) }
    requires short { Short (outputs ids.now offsets.now values.now lengths.now bytes.now map.now) }
    requires in_bounds { 786432 ≤ length out.old }
    ensures value { result ≡ length (answer_text (outputs ids.now offsets.now values.now lengths.now bytes.now map.now) (accepted (numbers_in n))) }
    ensures out_after { out.new ≡ put 0 (answer_text (outputs ids.now offsets.now values.now lengths.now bytes.now map.now) (accepted (numbers_in n))) out.old }
{
    let i = n.ids;
    let o = n.offsets;
    let v = n.values * column_type::words_per_value(n.typ);
    let t = n.terms;
    let m = n.map;
    listing::put_accepted(
        n.typ as u64,
        n.class as u64,
        n.rows as u64,
        &ids[..i],
        &offsets[..o],
        n.values as u64,
        &values[..v],
        &lengths[..t],
        bytes,
        &map[..m],
        out,
    )
}

// An answer, with what the call left in the output lists.
fn put_answer(
    answer: Result<merge::Numbers, Refusal>,
    ids: &[u32],
    offsets: &[u32],
    values: &[u64],
    lengths: &[u32],
    bytes: &[u8],
    map: &[u32],
    out: &mut [u8],
) -> usize
    requires announced_by { AnnouncedBy (answer_of answer) (outputs ids.now offsets.now values.now lengths.now bytes.now map.now) }
    requires short { Short (outputs ids.now offsets.now values.now lengths.now bytes.now map.now) }
    requires in_bounds { 786432 ≤ length out.old }
    ensures upper_bound { result ≤ 786432 }
    ensures value { result ≡ length (answer_text (outputs ids.now offsets.now values.now lengths.now bytes.now map.now) (answer_of answer)) }
    ensures out_after { out.new ≡ put 0 (answer_text (outputs ids.now offsets.now values.now lengths.now bytes.now map.now) (answer_of answer)) out.old }
{
    match answer {
        Ok(n) => put_column(n, ids, offsets, values, lengths, bytes, map, out),
        Err(refusal) => {
            let number = u32::from(refusal);
            listing::put_refusal(u64::from(number), out)
        }
    }
}

// Joins what is lent, with the program's own outputs, and prints the outcome.
fn answer_lists(
    mode: u32,
    required: u32,
    records: &[segment::RecordNumbers],
    sections: &segment::Sections,
    addresses: &[[u32; 2]],
    out: &mut [u8],
) -> usize
    requires { 786432 ≤ length out.old }
    ensures upper_bound { result ≤ 786432 }
    ensures value { result ≡ length (listing (join_outcome (lent_in mode required (records_of records.now) sections.now addresses.now program_buffers))) }
    ensures out_after { out.new ≡ put 0 (listing (join_outcome (lent_in mode required (records_of records.now) sections.now addresses.now program_buffers))) out.old }
{
    let mut i = [0u32; 8192];
    let mut o = [0u32; 8192];
    let mut v = [0u64; 8192];
    let mut l = [0u32; 8192];
    let mut b = [0u8; 8192];
    let mut m = [0u32; 8192];
    let mut work = [0u8; 65536];
    let answer = merge::join(
        mode, required, records, sections, addresses, &mut work, &mut i, &mut o, &mut v, &mut l,
        &mut b, &mut m,
    );
    put_answer(answer, &i, &o, &v, &l, &b, &m, out)
}

// Reads the lists out of the words of an input that fits, and answers them.
fn answer_words(words: &[u64], bounds: &[usize], out: &mut [u8]) -> usize
    requires fitted { Fitted words.now bounds.now }
    requires in_bounds { 786432 ≤ length out.old }
    ensures upper_bound { result ≤ 786432 }
    ensures value { result ≡ length (listing (join_outcome (lent_from (word_sections words.now)))) }
    ensures out_after { out.new ≡ put 0 (listing (join_outcome (lent_from (word_sections words.now)))) out.old }
{
    let mut records = [[0u32; segment::WIDTH]; 1024];
    let mut ids = [0u32; 8192];
    let mut offsets = [0u32; 8192];
    let mut lengths = [0u32; 8192];
    let mut bytes = [0u8; 8192];
    let mut addresses = [[0u32; 2]; 4096];
    let mode = wire::read_number(words, bounds, wire::CALL, 0);
    let required = wire::read_number(words, bounds, wire::CALL, 1);
    let r = wire::read_records(words, bounds, &mut records);
    let i = wire::read_numbers(words, bounds, wire::IDS, &mut ids);
    let o = wire::read_numbers(words, bounds, wire::OFFSETS, &mut offsets);
    let values = wire::section(words, bounds, wire::VALUES);
    let l = wire::read_numbers(words, bounds, wire::LENGTHS, &mut lengths);
    let b = wire::read_numbers(words, bounds, wire::BYTES, &mut bytes);
    let alive = wire::section(words, bounds, wire::ALIVE);
    let a = wire::read_addresses(words, bounds, &mut addresses);
    let sections = segment::Sections {
        ids: &ids[..i],
        offsets: &offsets[..o],
        values,
        lengths: &lengths[..l],
        bytes: &bytes[..b],
        alive,
    };
    answer_lists(
        mode,
        required,
        &records[..r],
        &sections,
        &addresses[..a],
        out,
    )
}

// What the joining program writes for the bytes that it has read, at the start of out; answers how many bytes that are.
pub fn reply(input: &[u8], out: &mut [u8]) -> usize
    requires { 786432 ≤ length out.old }
    ensures prefix_len { IsPrefixLen result out.new }
    ensures value { result ≡ length (Listing·reply input.now) }
    ensures out_after { out.new ≡ put 0 (Listing·reply input.now) out.old }
{
    let mut words = [0u64; 8192];
    let mut bounds = [0usize; 10];
    if !wire::read_input(input, &mut words, &mut bounds) {
        return listing::put_refusal(2, out);
    }
    let n = input.len() / 8;
    answer_words(&words[..n], &bounds, out)
}

// Place for an input: one byte more than is taken, so that an input that is too long is seen.
pub fn input_buffer() -> [u8; 65537]
    ensures most_bytes_value { suc most_bytes ≡ length result }
    ensures value { result ≡ zeros (suc most_bytes) }
{
    [0; 65537]
}

// Place for every listing.
pub fn output_buffer() -> [u8; 786432]
    ensures value { 786432 ≡ length result }
    ensures value_2 { result ≡ zeros 786432 }
{
    [0; 786432]
}

// The reply to an input of any length, of which the buffer holds as much as it has place for: its first n bytes.
pub fn answer_input(buffer: &[u8], n: usize, out: &mut [u8]) -> usize
    requires most_bytes_in_bounds { suc most_bytes ≤ length buffer.now }
    requires n_in_bounds { n ≤ length buffer.now }
    requires in_bounds { 786432 ≤ length out.old }
    ensures prefix_len { IsPrefixLen result out.new }
    ensures answers { Answers (length buffer.now) (take n buffer.now) result out.old out.new }
{
    reply(&buffer[..n], out)
}
