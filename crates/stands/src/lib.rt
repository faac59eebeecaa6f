// Where each segment's runs stand in the lent sections, and lookups of a row there (column_index/merge/mod.rs: the columns' indexes, a dropped one as `ColumnIndex::Empty`).
#![tactic(auto)]

ghost use Rattle.std.specs.Prelude.{◌≡◌, [], ◌<◌, ◌≤◌, ◌+◌, ◌-◌, length, get_or, take, drop};
ghost use Rattle.runs.specs.Put.{put};
ghost use Rattle.segment.specs.Records.{record_in};
ghost use Rattle.stands.specs.Width.{id_part};
ghost use Rattle.stands.specs.Stand.{table, stand_of, numbers_of, many, span, none_of, nowhere, next_stand, Low, Grown, stand_in};
ghost use Rattle.stands.specs.Look.{start_in, end_in, Within};

use column_index::Range;

// A run's first index, and the one after its last.
#[derive(Clone, Copy)]
pub struct Span {
    pub from: usize,
    pub to: usize,
}

impl Span {
    // How many elements that are.
    pub fn len(self) -> usize
        requires { self.from ≤ self.to }
        ensures { result ≡ many self }
    {
        self.to - self.from
    }

    // What stands there.
    pub fn of<'a, T>(self, list: &'a [T]) -> &'a [T]
        requires rises { self.from ≤ self.to }
        requires ends { self.to ≤ length list.now }
        ensures { result.now ≡ take (self.to - self.from) (drop self.from list.now) }
    {
        &list[self.from..self.to]
    }

    // None of it, where it begins.
    pub fn emptied(self) -> Span
        ensures { result ≡ none_of self }
    {
        Span {
            to: self.from,
            ..self
        }
    }
}

// Where a segment stands: the codes and rows of its record, whether it is held, its first byte where there is a working byte for each row, how many values it has
// and how many words each of them has, its runs, that of values in words, how many of its rows are alive, and the least and the greatest of its values.
#[derive(Clone, Copy)]
pub struct Stand {
    pub typ: usize,
    pub kind: usize,
    pub flag: usize,
    pub held: usize,
    pub rows: usize,
    pub work: usize,
    pub count: usize,
    pub unit: usize,
    pub ids: Span,
    pub offsets: Span,
    pub values: Span,
    pub terms: Span,
    pub text: Span,
    pub alive: Span,
    pub map: Span,
    pub live: usize,
    pub least: usize,
    pub greatest: usize,
}

// How many numbers a stand has.
pub const NUMBERS: usize = 25;

// A stand's numbers, as a table has them.
pub type StandNumbers = [usize; NUMBERS];

// This impl and its way back alone know the order of a stand's numbers.
impl From<StandNumbers> for Stand {
    ghost from_gives = { λ r p. p ≡ stand_of r };

    fn from(r: StandNumbers) -> Stand {
        Stand {
            typ: r[0],
            kind: r[1],
            flag: r[2],
            held: r[3],
            rows: r[4],
            work: r[5],
            count: r[6],
            unit: r[7],
            ids: Span {
                from: r[8],
                to: r[9],
            },
            offsets: Span {
                from: r[10],
                to: r[11],
            },
            values: Span {
                from: r[12],
                to: r[13],
            },
            terms: Span {
                from: r[14],
                to: r[15],
            },
            text: Span {
                from: r[16],
                to: r[17],
            },
            alive: Span {
                from: r[18],
                to: r[19],
            },
            map: Span {
                from: r[20],
                to: r[21],
            },
            live: r[22],
            least: r[23],
            greatest: r[24],
        }
    }
}

impl From<Stand> for StandNumbers {
    ghost from_gives = { λ p r. r ≡ numbers_of p };

    fn from(p: Stand) -> StandNumbers {
        [
            p.typ,
            p.kind,
            p.flag,
            p.held,
            p.rows,
            p.work,
            p.count,
            p.unit,
            p.ids.from,
            p.ids.to,
            p.offsets.from,
            p.offsets.to,
            p.values.from,
            p.values.to,
            p.terms.from,
            p.terms.to,
            p.text.from,
            p.text.to,
            p.alive.from,
            p.alive.to,
            p.map.from,
            p.map.to,
            p.live,
            p.least,
            p.greatest,
        ]
    }
}

// Where segment s stands.
pub fn stand_at(stands: &[StandNumbers], s: usize) -> Stand
    requires { s < length stands.now }
    ensures { result ≡ stand_of (get_or stands.now s []) }
{
    Stand::from(stands[s])
}

// ---- the table

// The n elements from an index on.
pub fn from_on(from: usize, n: usize) -> Span
    requires { from + n < 18446744073709551616 }
    ensures { result ≡ span from n }
{
    Span { from, to: from + n }
}

// Before the first segment.
fn before_all() -> Stand
    ensures { result ≡ nowhere }
{
    Stand::from([0; NUMBERS])
}

// The segment of a record whose runs follow those of the segment at p.
fn next(p: Stand, r: segment::Record) -> Stand
    requires { Low p 2199023255552 }
    ensures value { result ≡ next_stand p (record_in r) }
    ensures grown { Grown p result }
{
    let none = Span { from: 0, to: 0 };
    Stand {
        typ: r.typ as usize,
        kind: r.kind as usize,
        flag: r.flag as usize,
        held: 0,
        rows: r.rows as usize,
        work: p.work + p.rows,
        count: r.values as usize,
        unit: column_type::words_per_value(r.typ),
        ids: from_on(p.ids.to, r.ids as usize),
        offsets: from_on(p.offsets.to, r.offsets as usize),
        values: from_on(p.values.to, segment::value_words(r)),
        terms: from_on(p.terms.to, r.terms as usize),
        text: none,
        alive: from_on(p.alive.to, segment::alive_words(r)),
        map: none,
        live: r.alive as usize,
        least: r.least as usize,
        greatest: r.greatest as usize,
    }
}

// Where the segments stand, one after another, none of them marked as held; their text and their part of the map come later.
pub fn fill_stands(records: &[segment::RecordNumbers], stands: &mut [StandNumbers])
    requires records_len_bound { length records.now ≤ 256 }
    requires records_in_bounds { length records.now ≤ length stands.old }
    ensures { stands.new ≡ put 0 (table (λ k. numbers_of (stand_in records.now k)) (length records.now)) stands.old }
{
    let mut p = before_all();
    for (s, &r) in records.iter().enumerate() {
        p = next(p, segment::Record::from(r));
        stands[s] = StandNumbers::from(p);
    }
}

// ---- a row

// Where the values of a row stand among the segment's values; `near` is a guess at the row's rank.
pub fn range_in(p: Stand, ids: &[u32], offsets: &[u32], row: u32, near: usize) -> Range
    requires { Within p ids.now offsets.now row }
    ensures start_value { result.start ≡ start_in p ids.now offsets.now row }
    ensures end_value { result.end ≡ end_in p ids.now offsets.now row }
{
    column_index::value_range(p.kind, p.ids.of(ids), p.offsets.of(offsets), row, near)
}

// 1 if the row has a value, else 0.
pub fn one_if(w: usize) -> usize
    ensures value { result ≡ length (id_part 0 w) }
    ensures upper_bound { result ≤ 1 }
{
    w.min(1)
}
