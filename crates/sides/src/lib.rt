// The rectangle of a block's rows: the lowest and the highest of each coordinate, its sides; and the gap of two sides,
// lowered by the tolerances. Shades have n coordinates.
#![tactic(auto)]

ghost use Rattle.std.specs.Prelude.{◌≡◌, ◌+◌, ◌*◌, ◌-◌, ◌≤◌, ◌<◌, ◌^◌, length};
ghost use Rattle.rules.specs.Tables.{table, HasRow, HasRows, side, rectangle, side_gap};
ghost use Rattle.sides.specs.Sides.{widened, with_side, sides_in};

use rules::Side;

// A side made to hold x too.
fn widened(s: Side, x: i32) -> Side
    ensures { result ≡ widened s x }
{
    Side {
        low: s.low.min(x),
        high: s.high.max(x),
    }
}

// The side of coordinate k, from 0 on, of the first m rows.
#[tactic(auto, using(crate::proofs::Ends::side_more), unfolding(rules::specs::Tables::side))]
pub fn side(n: u32, t: &[i32], m: usize, k: usize) -> Side
    requires { (1 ≤ m) × HasRows (table n t.now) m × (k < n) }
    ensures { result ≡ side (table n t.now) k (m - 1) }
{
    let x = tables::coordinate(n, t, 0, k);
    let mut s = Side { low: x, high: x };
    for i in 1..m {
        s = widened(s, tables::coordinate(n, t, i, k));
    }
    s
}

// Side k, from 0 on, is written into lent numbers.
fn put_side(out: &mut [i32], k: usize, s: Side)
    requires { 2 * k + 1 < length out.old }
    ensures { out.new ≡ with_side k s out.old }
{
    out[2 * k] = s.low;
    out[2 * k + 1] = s.high;
}

// The rectangle of a block is written into lent numbers: room for three sides, in fixed memory.
pub fn put_sides(n: u32, t: &[i32], out: &mut [i32; 6])
    requires { (n ≤ 3) × HasRow (table n t.now) 0 }
    ensures { sides_in n out.new ≡ rectangle (table n t.now) }
{
    let m = tables::row_count(n, t);
    for k in 0..n as usize {
        put_side(out, k, side(n, t, m, k));
    }
}

// How far apart two sides lie: 0 where they overlap. For all 32-bit numbers.
pub fn side_gap(low: i32, high: i32, o: Side) -> u64
    ensures { (result ≡ side_gap (record { low = low; high = high }) o) × (result < 2 ^ 32) }
{
    let above = i64::from(o.low) - i64::from(high);
    let below = i64::from(low) - i64::from(o.high);
    let gap = if 0 < above { above } else { below.max(0) };
    gap as u64
}

// A gap lowered by the tolerances, not below 0.
pub fn lowered(gap: u64, less: u32) -> u64
    ensures { result ≡ gap - less }
{
    gap.saturating_sub(u64::from(less))
}
