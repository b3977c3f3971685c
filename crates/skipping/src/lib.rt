// What a block pair comes to, before its pairs are looked at one by one. Shades have n coordinates.
#![tactic(auto)]

ghost use Rattle.std.specs.Prelude.{◌≡◌, true, cond};
ghost use Rattle.rules.specs.Tables.{table, rectangle, far_apart, HasRow};
ghost use Rattle.rules.specs.Calls.{is_card};
ghost use Rattle.tolerances.specs.Counted.{TolerancesFit};
ghost use Rattle.sides.specs.Sides.{sides_in};
ghost use Rattle.near_rows.specs.Small.{SmallPairs};
ghost use Rattle.skipping.specs.Effect.{Effect};

use rules::Query;

// Whether the rectangles of two blocks lie farther apart than the radius, with the query's tolerances. That of the new
// block, x where `field` says so, stands in `sides`.
#[tactic(auto, using(rules::proofs::Rectangles::far_turned))]
fn are_far(n: u32, q: Query, field: bool, sides: &[i32; 6], x: &[i32], y: &[i32]) -> bool
    requires n_value { (is_card n ≡ true) × HasRow (table n x.now) 0 × HasRow (table n y.now) 0 × TolerancesFit q }
    requires sides_value { sides_in n sides.now ≡ rectangle (cond field (table n x.now) (table n y.now)) }
    ensures { result ≡ far_apart q (table n x.now) (table n y.now) }
{
    if field {
        return rectangles::far(n, q, sides, y);
    }
    rectangles::far(n, q, sides, x)
}

// What a block pair comes to.
#[derive(Clone, Copy, PartialEq, Eq)]
pub enum Joining {
    // It is skipped.
    Skipped,
    // It is joined, and no pair of it qualifies.
    Quiet,
    // It is joined, pair by pair.
    PairByPair,
}

// What a block pair comes to. Only small blocks are tried for a quiet one. `full` says that k pairs are held or out,
// `low` is the lowest held sum; the rectangle of the new block, x where `field` says so, stands in `sides`.
pub fn effect(
    n: u32,
    full: bool,
    low: u32,
    q: Query,
    field: bool,
    sides: &[i32; 6],
    x: &[i32],
    y: &[i32],
) -> Joining
    requires has_row { HasRow (table n x.now) 0 × HasRow (table n y.now) 0 }
    requires small_pairs { SmallPairs q (table n x.now) (table n y.now) }
    requires sides_value { sides_in n sides.now ≡ rectangle (cond field (table n x.now) (table n y.now)) }
    ensures { Effect full low q (table n x.now) (table n y.now) result }
{
    let first = tables::weighted(q.weights.field.0, n, x, 0);
    let second = tables::weighted(q.weights.trim.0, n, y, 0);
    if full & (first + second < u64::from(low)) {
        return Joining::Skipped;
    }
    if are_far(n, q, field, sides, x, y) {
        return Joining::Skipped;
    }
    if 32 < tables::row_count(n, x) || near_rows::any_beside(n, q, x, y) {
        return Joining::PairByPair;
    }
    Joining::Quiet
}
