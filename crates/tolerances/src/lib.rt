// What a query's tolerances come to: both together, how a gap counts by the query's meaning, how far apart shades that
// qualify may lie, and whether any two can.
#![tactic(auto)]

ghost use Rattle.std.specs.Prelude.{◌≡◌, ◌≤◌};
ghost use Rattle.rules.specs.Tables.{tolerance, unsatisfiable};
ghost use Rattle.tolerances.specs.Counted.{TolerancesFit, more, less, reach, wide};

use rules::{Meaning, Query};

// Both tolerances together.
pub fn both(q: Query) -> u32
    requires { TolerancesFit q }
    ensures { (result ≡ tolerance q) × (result ≤ 1000) }
{
    q.tolerances.field.0 + q.tolerances.trim.0
}

// Whether no two shades of n coordinates qualify, wherever they lie.
#[tactic(auto, using(rules::proofs::ToleranceLaws::unsatisfiable_is))]
pub fn unsatisfiable(q: Query, n: u32) -> bool
    requires { TolerancesFit q }
    ensures { result ≡ unsatisfiable q n }
{
    let r = u64::from(q.radius);
    let t = u64::from(both(q));
    match q.meaning {
        Meaning::Surely => r * r < u64::from(n) * (t * t),
        Meaning::Possibly => false,
    }
}

// What a gap is raised by: a pair that qualifies surely does at the farthest places.
#[tactic(auto, unfolding(crate::specs::Counted::more))]
pub fn more(q: Query) -> u32
    requires { TolerancesFit q }
    ensures { (result ≡ more q) × (result ≤ 1000) }
{
    let t = both(q);
    match q.meaning {
        Meaning::Surely => t,
        Meaning::Possibly => 0,
    }
}

// What it is then lowered by, not below 0: one that qualifies possibly does at the nearest.
#[tactic(auto, unfolding(crate::specs::Counted::less))]
pub fn less(q: Query) -> u32
    requires { TolerancesFit q }
    ensures { (result ≡ less q) × (result ≤ 1000) }
{
    let t = both(q);
    match q.meaning {
        Meaning::Surely => 0,
        Meaning::Possibly => t,
    }
}

// How far apart two shades that qualify may lie in a coordinate.
#[tactic(auto, unfolding(crate::specs::Counted::reach))]
pub fn reach(q: Query) -> u32
    requires { TolerancesFit q × (q.radius ≤ 40000) }
    ensures { (result ≡ reach q) × (result ≤ 41000) }
{
    (q.radius + less(q)).saturating_sub(more(q))
}

// How far apart two shades that qualify may lie, or more.
#[tactic(auto, unfolding(crate::specs::Counted::wide))]
pub fn wide(q: Query) -> u32
    requires { TolerancesFit q × (q.radius ≤ 40000) }
    ensures { (result ≡ wide q) × (result ≤ 43000) }
{
    q.radius + 3 * less(q)
}
