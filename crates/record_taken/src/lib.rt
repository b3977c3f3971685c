// A session's record taken from the numbers that a caller in C or Rust lends.
#![tactic(auto)]

ghost use Rattle.std.specs.Prelude.{◌≡◌, ◌≤◌, ◌<◌, length, replicate};
ghost use Rattle.rules.specs.Session.{no_pair, place_count};
ghost use Rattle.record_layout.specs.Flat.{flat_size, pair_in, with_pairs, unflatten};

use record_layout::{
    CARD, FIELD_DEPTH, FIELD_ROWS, FIELD_TOLERANCE, FIELD_WEIGHT, HELD, JOINED, JOINED_HIGH, LAST,
    MEANING, OUT, PAIR_SIZE, PAIRS, TRIM_DEPTH, TRIM_ROWS, TRIM_TOLERANCE, TRIM_WEIGHT, WORD,
};
use rules::{
    Counts, FieldRows, FieldTolerance, FieldWeight, Meaning, NO_PAIR, PLACES, Pair, Session,
    Tolerances, TrimRows, TrimTolerance, TrimWeight, TwoTables, Weights,
};

// Pair place i + 1.
#[tactic(auto, unfolding(record_layout::specs::Flat::pair_in))]
fn pair_in(l: &[u32], i: usize) -> Pair
    requires { (i < place_count) × (flat_size ≤ length l.now) }
    ensures { result ≡ pair_in l.now i }
{
    let at = PAIRS + PAIR_SIZE * i;
    Pair {
        sum: l[at],
        field: l[at + 1],
        trim: l[at + 2],
    }
}

// The record that the numbers in front of the pair places and behind them are, with no pair in its places.
#[tactic(auto, unfolding(record_layout::specs::Flat::with_pairs))]
fn head_in(l: &[u32]) -> Session
    requires { flat_size ≤ length l.now }
    ensures { result ≡ with_pairs l.now (replicate place_count no_pair) }
{
    let weights = Weights {
        field: FieldWeight(l[FIELD_WEIGHT]),
        trim: TrimWeight(l[TRIM_WEIGHT]),
    };
    let tolerances = Tolerances {
        field: FieldTolerance(l[FIELD_TOLERANCE]),
        trim: TrimTolerance(l[TRIM_TOLERANCE]),
    };
    let meaning = Meaning::from(l[MEANING]);
    let query = query_taken::query_with(l, weights, tolerances, meaning);
    let rows = TwoTables {
        field: FieldRows(l[FIELD_ROWS]),
        trim: TrimRows(l[TRIM_ROWS]),
        card: l[CARD],
    };
    let depth = Counts {
        field: FieldRows(l[FIELD_DEPTH]),
        trim: TrimRows(l[TRIM_DEPTH]),
    };
    Session {
        query,
        rows,
        depth,
        last: l[LAST],
        out: l[OUT],
        held: l[HELD],
        pairs: [NO_PAIR; PLACES],
        joined: u64::from(l[JOINED]) + u64::from(l[JOINED_HIGH]) * WORD,
    }
}

// The record that the first 210 numbers are, whatever they are. Its places are filled where they stand.
pub fn unpack(l: &[u32]) -> Session
    requires { flat_size ≤ length l.now }
    ensures { result ≡ unflatten l.now }
{
    let mut s = head_in(l);
    for i in 0..PLACES {
        s.pairs[i] = pair_in(l, i);
    }
    s
}
