// Whether a block's rectangle lies farther than the radius from one in lent numbers, by the query's tolerances. Shades
// have n coordinates.
#![tactic(auto)]

ghost use Rattle.std.specs.Prelude.{◌≡◌, true, false, ◌*◌, ◌≤◌, ltb};
ghost use Rattle.rules.specs.Tables.{Table, table, HasRow, HasRows, squares, rectangle, lowered_gap, far_apart};
ghost use Rattle.tolerances.specs.Counted.{TolerancesFit};
ghost use Rattle.sides.specs.Sides.{sides_in, first_sides};

use rules::Query;
use sides::{lowered, side, side_gap};

// Whether the first m rows of a block lie too far from a rectangle, each gap lowered by the tolerances: what one
// coordinate leaves of the radius' square is for the others.
fn rows_far(n: u32, radius: u32, less: u32, sides: &[i32; 6], t: &[i32], m: usize) -> bool
    requires { (n ≤ 3) × (1 ≤ m) × HasRows (table n t.now) m }
    ensures { result ≡ ltb (radius * radius)
        (squares (lowered_gap less) (sides_in n sides.now) (first_sides (table n t.now) m)) }
{
    let r = u64::from(radius);
    let mut left = r * r;
    for k in 0..n as usize {
        let o = side(n, t, m, k);
        let g = lowered(side_gap(sides[2 * k], sides[2 * k + 1], o), less);
        let square = g * g;
        if left < square {
            return true;
        }
        left -= square;
    }
    false
}

// The same of one row or a few. The code is chosen by n, so that the compiler knows how many numbers a row has.
fn front_far(n: u32, radius: u32, less: u32, sides: &[i32; 6], t: &[i32], m: usize) -> bool
    requires { (2 ≤ n) × (n ≤ 3) × (1 ≤ m) × HasRows (table n t.now) m }
    ensures { result ≡ ltb (radius * radius)
        (squares (lowered_gap less) (sides_in n sides.now) (first_sides (table n t.now) m)) }
{
    match n {
        2 => rows_far(2, radius, less, sides, t, m),
        _ => rows_far(3, radius, less, sides, t, m),
    }
}

// Whether the first three of m rows, where there are so many, lie near enough: then all of them together do.
fn front_near(n: u32, radius: u32, less: u32, sides: &[i32; 6], t: &[i32], m: usize) -> bool
    requires { (2 ≤ n) × (n ≤ 3) × HasRows (table n t.now) m }
    ensures { result ≡ true → (3 ≤ m) × (ltb (radius * radius)
        (squares (lowered_gap less) (sides_in n sides.now) (first_sides (table n t.now) 3))
        ≡ false) }
{
    3 <= m && !front_far(n, radius, less, sides, t, 3)
}

// Whether a block's rectangle lies farther than the radius from the one in `sides`, with the query's tolerances. Its
// first three rows are tried first: most blocks of rows in no order of shade end there.
pub fn far(n: u32, q: Query, sides: &[i32; 6], t: &[i32]) -> bool
    requires { (2 ≤ n) × (n ≤ 3) × HasRow (table n t.now) 0 × TolerancesFit q }
    ensures { (x : Table) → rectangle x ≡ sides_in n sides.now
        → result ≡ far_apart q x (table n t.now) }
{
    let radius = q.radius;
    let less = tolerances::both(q);
    let m = tables::row_count(n, t);
    if m == 1 {
        return front_far(n, radius, less, sides, t, 1);
    }
    if front_near(n, radius, less, sides, t, m) {
        return false;
    }
    rows_far(n, radius, less, sides, t, m)
}
