// The grounds of 5 that look at numbers, together: all but those of the pair places.
#![tactic(auto)]

ghost use Rattle.std.specs.Prelude.{◌≡◌};
ghost use Rattle.number_checks.specs.Grounds.{numbers_fit};

use depth_checks::{block_count, counts_fit, depths_fit, mark_fits};
use rules::{Counts, Query, TwoTables};

// All grounds but those of the pair places.
#[tactic(auto, using(crate::specs::Passed::passing), unfolding(crate::specs::Grounds::numbers_fit))]
pub fn numbers_fit(
    q: Query,
    rows: TwoTables,
    depth: Counts,
    last: u32,
    out: u32,
    held: u32,
    joined: u64,
) -> bool
    ensures { result ≡ numbers_fit q rows depth last out held joined }
{
    if query_checks::check_query(q).is_err() {
        return false;
    }
    if !counts_fit(q.block, rows.field.0, depth.field.0) {
        return false;
    }
    if !counts_fit(q.block, rows.trim.0, depth.trim.0) {
        return false;
    }
    let few = u64::from(out) + u64::from(held) <= u64::from(q.k);
    let mark = mark_fits(last, depth);
    let most = block_count(q.block, depth.field.0) * block_count(q.block, depth.trim.0);
    let card = cards::is_card(rows.card);
    let depths = depths_fit(q, rows.card, depth);
    few & (mark & ((joined <= most) & (card & depths)))
}
