// What a query's numbers are refused by: 1 to 3, 12 and 16.
#![tactic(auto)]

ghost use Rattle.std.specs.Prelude.{◌≡◌, leb};
ghost use Rattle.rules.specs.Numbers.{weight_range, tolerance_range, unless, code};
ghost use Rattle.rules.specs.Calls.{between, most_tolerance, query_code};

use codes::{first, unless};
use rules::{Query, Refusal};

// 12 where a weight is outside 1 to 9.
fn check_weight(weight: u32) -> Result<(), Refusal>
    ensures { code result ≡ unless (between 1 9 weight) weight_range }
{
    unless((1 <= weight) & (weight <= 9), Refusal::WeightRange)
}

// 16 where a tolerance is outside 0 to 500.
fn check_tolerance(tolerance: u32) -> Result<(), Refusal>
    ensures { code result ≡ unless (leb tolerance most_tolerance) tolerance_range }
{
    unless(tolerance <= rules::MOST_TOLERANCE, Refusal::ToleranceRange)
}

// What a query is refused by: 1, 2, 3, then 12 of either weight and 16 of either tolerance.
#[tactic(auto, using(crate::proofs::Checks::steps), unfolding(rules::specs::Calls::query_code))]
pub fn check_query(q: Query) -> Result<(), Refusal>
    ensures { code result ≡ query_code q }
{
    unless((1 <= q.k) & (q.k <= 64), Refusal::ListLength)?;
    unless((1 <= q.block) & (q.block <= 1024), Refusal::BlockSize)?;
    unless(q.radius <= 40000, Refusal::RadiusRange)?;
    check_weight(q.weights.field.0)?;
    check_weight(q.weights.trim.0)?;
    first(
        check_tolerance(q.tolerances.field.0),
        check_tolerance(q.tolerances.trim.0),
    )
}
