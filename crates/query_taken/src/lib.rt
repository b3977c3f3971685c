// A query taken from the numbers that a caller in C or Rust lends.
#![tactic(auto)]

ghost use Rattle.std.specs.Prelude.{◌≡◌, get_or};
ghost use Rattle.record_layout.specs.Flat.{query_with, query_in, kinds_in};

use record_layout::{BLOCK_ROWS, K, RADIUS};
use rules::{
    FieldKind, FieldTolerance, FieldWeight, Kinds, Meaning, Query, Tolerances, TrimKind,
    TrimTolerance, TrimWeight, Weights,
};

// The two weights of a lent query, behind k, block and radius, the tables' two kinds, its two tolerances, its meaning.
const FIELD_WEIGHT_IN_QUERY: usize = 3;

const TRIM_WEIGHT_IN_QUERY: usize = 4;

const FIELD_KIND_IN_QUERY: usize = 5;

const TRIM_KIND_IN_QUERY: usize = 6;

const FIELD_TOLERANCE_IN_QUERY: usize = 7;

const TRIM_TOLERANCE_IN_QUERY: usize = 8;

const MEANING_IN_QUERY: usize = 9;

// Number i, another past the end.
fn number_or(l: &[u32], i: usize, otherwise: u32) -> u32
    ensures { result ≡ get_or l.now i otherwise }
{
    l.get(i).copied().unwrap_or(otherwise)
}

// The query that the first three numbers are, with weights, tolerances and a meaning; a number that is not there is 0.
#[tactic(auto, unfolding(record_layout::specs::Flat::query_with))]
pub fn query_with(l: &[u32], weights: Weights, tolerances: Tolerances, meaning: Meaning) -> Query
    ensures { result ≡ query_with l.now weights tolerances meaning }
{
    Query {
        k: number_or(l, K, 0),
        block: number_or(l, BLOCK_ROWS, 0),
        radius: number_or(l, RADIUS, 0),
        weights,
        tolerances,
        meaning,
    }
}

// A lent query; a weight that is not lent is 1, a tolerance and the meaning 0.
#[tactic(auto, unfolding(record_layout::specs::Flat::query_in))]
pub fn query_in(l: &[u32]) -> Query
    ensures { result ≡ query_in l.now }
{
    let weights = Weights {
        field: FieldWeight(number_or(l, FIELD_WEIGHT_IN_QUERY, 1)),
        trim: TrimWeight(number_or(l, TRIM_WEIGHT_IN_QUERY, 1)),
    };
    let tolerances = Tolerances {
        field: FieldTolerance(number_or(l, FIELD_TOLERANCE_IN_QUERY, 0)),
        trim: TrimTolerance(number_or(l, TRIM_TOLERANCE_IN_QUERY, 0)),
    };
    let meaning = Meaning::from(number_or(l, MEANING_IN_QUERY, 0));
    query_with(l, weights, tolerances, meaning)
}

// The kinds behind a lent query's weights; a kind that is not lent is 1 for field and 2 for trim.
#[tactic(auto, unfolding(record_layout::specs::Flat::kinds_in))]
pub fn kinds_in(l: &[u32]) -> Kinds
    ensures { result ≡ kinds_in l.now }
{
    Kinds {
        field: FieldKind(number_or(l, FIELD_KIND_IN_QUERY, 1)),
        trim: TrimKind(number_or(l, TRIM_KIND_IN_QUERY, 2)),
    }
}
