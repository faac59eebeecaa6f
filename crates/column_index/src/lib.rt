// Lookups in one segment's index: a row's rank, its range of values.
// After column_index/mod.rs (`value_row_ids`), multivalued_index.rs (`range`), optional_index/mod.rs (`rank_if_exists`).
#![tactic(auto)]

ghost use Rattle.std.specs.Prelude.{◌≡◌, ◌<◌, ◌≤◌, ◌+◌, length, get_or, T, leb};
ghost use Rattle.definitions.specs.Lists.{ascending};
ghost use Rattle.column_index.specs.Lookup.{rank_in, is_in, start_of, end_of, Readable};

// The places of a row's values among its segment's values: from start, before end. Stays: std's `Range` is not `Copy`.
#[derive(Clone, Copy, Debug, Default, PartialEq, Eq, Hash)]
pub struct Range {
    pub start: usize,
    pub end: usize,
}

// How many ids are below the row. `near` is a guess: a good one is a few below the rank, and saves the search; no guess changes the result.
pub fn rank(ids: &[u32], row: u32, near: usize) -> usize
    requires { T (ascending ids.now) }
    ensures { result ≡ rank_in row ids.now }
{
    if near != 0 && (near > ids.len() || ids[near - 1] >= row) {
        return ids.partition_point(|&id| id < row);
    }
    let end = ids.len().min(near + 8);
    let k = near + ids[near..end].iter().take_while(|&&id| id < row).count();
    if k < near + 8 {
        return k;
    }
    k + ids[k..].partition_point(|&id| id < row)
}

// Whether the row is an id; k is its rank.
pub fn is_listed(ids: &[u32], row: u32, k: usize) -> bool
    requires t { T (ascending ids.now) }
    requires k_value { k ≡ rank_in row ids.now }
    ensures { result ≡ is_in row ids.now }
{
    k < ids.len() && ids[k] == row
}

// Where the row's values stand; `near` is a guess at the row's rank.
pub fn value_range(kind: usize, ids: &[u32], offsets: &[u32], row: u32, near: usize) -> Range
    requires { Readable kind ids.now offsets.now }
    ensures start_value { result.start ≡ start_of kind ids.now offsets.now row }
    ensures end_value { result.end ≡ end_of kind ids.now offsets.now row }
{
    let r = row as usize;
    match kind {
        0 => Range { start: 0, end: 0 },
        1 => Range {
            start: r,
            end: r + 1,
        },
        _ => {
            let k = rank(ids, row, near);
            if !is_listed(ids, row, k) {
                Range { start: 0, end: 0 }
            } else if kind == 2 {
                Range {
                    start: k,
                    end: k + 1,
                }
            } else {
                Range {
                    start: offsets[k] as usize,
                    end: offsets[k + 1] as usize,
                }
            }
        }
    }
}
