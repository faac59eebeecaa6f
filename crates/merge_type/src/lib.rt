// The joined type, check 10 and the joined pair: merge/mod.rs (GroupedColumns::column_type_after_merge, merged_numerical_columns_type, coerce_columns, coerce_column), where an error is an answer.
#![tactic(auto)]

ghost use Rattle.std.specs.Prelude.{◌≡◌, ◌<◌};
ghost use Rattle.std.specs.Option.{option_map};
ghost use Rattle.definitions.specs.Types.{type_of};
ghost use Rattle.min_max.specs.Keys.{pair_in};
ghost use Rattle.numerical.specs.Seen.{none_seen, seen_from};
ghost use Rattle.stands.specs.Look.{pair_at};
ghost use Rattle.merge_type.specs.Parts.{is_part, types_in, Coded, held_in, one_among, all_become, type_answer, held_pair, is_thinned, any_thinned, fits_first};
ghost use Rattle.merge_type.specs.Only.{types_from};
ghost use Rattle.merge_type.specs.Found.{found_with};

use column_type::ABSENT;
use min_max::Range;
use stands::{Stand, StandNumbers};

#[tactic(auto, unfolding(crate::specs::Parts::fits_first))]
fn fits_first(first: u32, t: u32) -> bool
    ensures { result ≡ fits_first first t }
{
    first == ABSENT || t == ABSENT || column_type::category_of(first) == column_type::category_of(t)
}

#[tactic(auto, unfolding(crate::specs::Parts::is_part))]
fn is_part(p: Stand) -> bool
    ensures { result ≡ is_part p }
{
    p.held == 1 && p.typ != ABSENT as usize
}

// The least and the greatest of a column's values.
fn range_at(p: Stand) -> Range
    ensures { pair_in result ≡ pair_at p }
{
    Range {
        least: p.least as u64,
        greatest: p.greatest as u64,
    }
}

// The columns where they stand; each type is a u32.
#[derive(Clone, Copy)]
struct Columns<'a> {
    stands: &'a [StandNumbers],
    ghost coded: { Coded stands.now },
}

impl Columns<'_> {
    // Whether the required type and those of the present columns are of one category.
    fn one_category(&self, required: u32) -> bool
        ensures { result ≡ one_among required (types_in self.now.stands.now) }
    {
        let mut first = required;
        for &row in self.stands {
            let t = Stand::from(row).typ as u32;
            if !fits_first(first, t) {
                return false;
            }
            first = numerical::first_type(first, t);
        }
        true
    }

    // What the held columns say of the joined type.
    fn seen(&self) -> numerical::Compatible
        ensures { result ≡ seen_from none_seen (held_in self.now.stands.now) }
    {
        let mut seen = numerical::Compatible::none();
        for &row in self.stands {
            let p = Stand::from(row);
            if is_part(p) {
                seen = seen.accept(p.typ as u32, range_at(p));
            }
        }
        seen
    }

    // Whether every held column becomes type u.
    fn all_become(&self, u: u32) -> bool
        ensures { result ≡ all_become u (held_in self.now.stands.now) }
    {
        for &row in self.stands {
            let p = Stand::from(row);
            if is_part(p) && !numerical::is_coercible(p.typ as u32, u, range_at(p)) {
                return false;
            }
        }
        true
    }

    // The only type of the held columns, 255 for none; None where there are several.
    fn only_type(&self) -> Option<u32>
        ensures { result ≡ types_from 255 self.now.stands.now }
    {
        let mut first = ABSENT;
        for &row in self.stands {
            let p = Stand::from(row);
            if is_part(p) {
                let t = p.typ as u32;
                if first != ABSENT && first != t {
                    return None;
                }
                first = t;
            }
        }
        Some(first)
    }

    // The joined type.
    fn joined_type(&self, required: u32) -> u32
        ensures { result ≡ type_of required (held_in self.now.stands.now) }
    {
        if required != ABSENT {
            return required;
        }
        match self.only_type() {
            Some(t) => t,
            None => self.seen().joined_type(),
        }
    }
}

// The joined type, 255 for no column; None where check 10 fails: the types are of several categories, or a held column doesn't become the joined type.
#[tactic(auto, unfolding(crate::specs::Parts::type_answer))]
pub fn check_types(required: u32, stands: &[StandNumbers]) -> Option<u32>
    requires { Coded stands.now }
    ensures { result ≡ type_answer required stands.now }
{
    let columns = Columns { stands };
    if !columns.one_category(required) {
        return None;
    }
    let u = columns.joined_type(required);
    columns.all_become(u).then_some(u)
}

// ---- the joined pair from the held columns' own

// The pairs found so far, put together with one column's more.
#[tactic(auto, unfolding(crate::specs::Found::found_with))]
fn find_pair(to: u32, found: Option<Range>, p: Stand) -> Option<Range>
    ensures { option_map pair_in result ≡ found_with to (option_map pair_in found) p }
{
    if !is_part(p) {
        return found;
    }
    let own = range_at(p);
    Some(found.map_or(own, |sofar| min_max::together(to, sofar, own)))
}

// The pairs of the held columns put together: that of all their stored values, where each column becomes the type.
pub fn held_pair(to: u32, stands: &[StandNumbers]) -> Range
    ensures { pair_in result ≡ held_pair to stands.now }
{
    let none = Range {
        least: 0,
        greatest: 0,
    };
    if 1 < to {
        return none;
    }
    let mut found = None;
    for &row in stands {
        found = find_pair(to, found, Stand::from(row));
    }
    found.unwrap_or(none)
}

// Whether a column is held and has an alive set.
#[tactic(auto, unfolding(crate::specs::Parts::is_thinned))]
fn is_thinned(p: Stand) -> bool
    ensures { result ≡ is_thinned p }
{
    p.flag == 1 && is_part(p)
}

// Whether some held column has one, so that stored values of it may not be joined.
pub fn any_thinned(stands: &[StandNumbers]) -> bool
    ensures { result ≡ any_thinned stands.now }
{
    stands.iter().any(|&row| is_thinned(Stand::from(row)))
}
