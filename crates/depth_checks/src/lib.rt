// Grounds of 5 that look at depths: a table's row count and depth, the last-read mark, how many blocks were read, a
// query that nothing can meet.
#![tactic(auto)]

ghost use Rattle.std.specs.Prelude.{◌≡◌, ◌≤◌, ◌<◌};
ghost use Rattle.rules.specs.Tables.{most_rows};
ghost use Rattle.rules.specs.Read.{block_count};
ghost use Rattle.rules.specs.Calls.{counts_fit};
ghost use Rattle.tolerances.specs.Counted.{TolerancesFit};
ghost use Rattle.depth_checks.specs.Grounds.{mark_of, depths_of};

use rules::{Counts, Query};

// A table's row count and depth: at most 65,535 rows, of which the depth is a number of whole blocks, or all.
#[tactic(auto, unfolding(rules::specs::Calls::counts_fit))]
pub fn counts_fit(block: u32, rows: u32, depth: u32) -> bool
    requires { 0 < block }
    ensures { result ≡ counts_fit block rows depth }
{
    (rows <= rules::MOST_ROWS) & ((depth <= rows) & ((depth % block == 0) | (depth == rows)))
}

// The last-read mark, of the two depths.
#[tactic(auto, unfolding(crate::specs::Grounds::mark_of))]
pub fn mark_fits(last: u32, depth: Counts) -> bool
    ensures { result ≡ mark_of last depth }
{
    let field = depth.field.0;
    let trim = depth.trim.0;
    match last {
        0 => (field == 0) & (trim == 0),
        1 => 0 < field,
        2 => 0 < trim,
        _ => false,
    }
}

// How many blocks the first rows are, a short last one included.
pub fn block_count(block: u32, depth: u32) -> u64
    requires { (0 < block) × (block ≤ 1024) × (depth ≤ most_rows) }
    ensures { (result ≡ block_count block depth) × (result ≤ most_rows) }
{
    u64::from(depth.div_ceil(block))
}

// Of a query that nothing can meet, no row is read.
#[tactic(auto, unfolding(crate::specs::Grounds::depths_of))]
pub fn depths_fit(q: Query, card: u32, depth: Counts) -> bool
    requires { TolerancesFit q }
    ensures { result ≡ depths_of q card depth }
{
    !tolerances::unsatisfiable(q, card) | ((depth.field.0 == 0) & (depth.trim.0 == 0))
}
