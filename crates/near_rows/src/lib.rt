// Which rows of two blocks lie near each other, asked of many at once and of one pair. Shades have n coordinates.
#![tactic(auto)]

ghost use Rattle.std.specs.Prelude.{◌≡◌, true, false, ◌≤◌, min};
ghost use Rattle.rules.specs.Tables.{table, row, withdrawn, terms, HasRow, HasRows};
ghost use Rattle.rules.specs.Calls.{is_card};
ghost use Rattle.tolerances.specs.Counted.{Beyond};
ghost use Rattle.distance.specs.Small.{Small};
ghost use Rattle.near_rows.specs.Live.{Live};
ghost use Rattle.near_rows.specs.Small.{SmallPairs};
ghost use Rattle.near_rows.specs.Near.{NoneNear, NoPair, NextNear};
ghost use Rattle.near_rows.specs.Candidate.{stand_near, Candidate};

use rules::Query;

// Whether row i + 1 of x lies beside row j + 1 of y, no farther apart than this in any coordinate.
fn beside_at(n: u32, reach: u32, x: &[i32], i: usize, y: &[i32], j: usize) -> bool
    requires has_row { HasRow (table n x.now) i × HasRow (table n y.now) j }
    requires small { Small (row (table n x.now) i).shade × Small (row (table n y.now) j).shade × (reach ≤ 41000) }
    ensures { result ≡ false → Beyond reach (row (table n x.now) i).shade
        (row (table n y.now) j).shade }
{
    let first = tables::shade(n, x, i);
    let second = tables::shade(n, y, j);
    distance::beside(reach, first, second)
}

// Whether row i + 1 of x lies beside any of y's rows k + 1 to e: where it does not, it lies near none of them. It looks
// at all of them: no branch stands in the loop.
fn some_beside(n: u32, q: Query, x: &[i32], i: usize, y: &[i32], k: usize, e: usize) -> bool
    requires has_row { HasRow (table n x.now) i × (k ≤ e) × HasRows (table n y.now) e }
    requires small_pairs { SmallPairs q (table n x.now) (table n y.now) }
    ensures { result ≡ false
        → NoneNear (terms q) (table n x.now) i (table n y.now) k e }
{
    let reach = tolerances::reach(q);
    let mut seen = false;
    for j in k..e {
        seen |= beside_at(n, reach, x, i, y, j);
    }
    seen
}

fn any_beside_at(n: u32, q: Query, x: &[i32], y: &[i32]) -> bool
    requires { SmallPairs q (table n x.now) (table n y.now) }
    ensures { result ≡ false → NoPair (terms q) (table n x.now) (table n y.now) }
{
    let l = tables::rows_lent(n, x);
    let m = tables::rows_lent(n, y);
    let mut seen = false;
    for i in 0..l {
        seen |= some_beside(n, q, x, i, y, 0, m);
    }
    seen
}

// Whether any row of x lies beside any row of y: where none does, no pair of theirs qualifies. The code is chosen by n,
// so that the compiler knows how many numbers a row has.
pub fn any_beside(n: u32, q: Query, x: &[i32], y: &[i32]) -> bool
    requires { SmallPairs q (table n x.now) (table n y.now) }
    ensures { result ≡ false → NoPair (terms q) (table n x.now) (table n y.now) }
{
    match n {
        2 => any_beside_at(2, q, x, y),
        _ => any_beside_at(3, q, x, y),
    }
}

fn near_by_at(n: u32, radius: u32, x: &[i32], i: usize, y: &[i32], j: usize) -> bool
    requires has_row { HasRow (table n x.now) i × HasRow (table n y.now) j × (is_card n ≡ true) × (radius ≤ 43000) }
    requires small { Small (row (table n x.now) i).shade × Small (row (table n y.now) j).shade }
    ensures { result ≡ stand_near radius (row (table n x.now) i) (row (table n y.now) j) }
{
    let first = tables::shade(n, x, i);
    let second = tables::shade(n, y, j);
    distance::near_small(radius, 0, 0, first, second)
}

// Whether row i + 1 of x and row j + 1 of y lie within the radius, as they stand: at 32 bits, as rows that passed 6
// allow. The code is chosen by n.
fn near_by(n: u32, radius: u32, x: &[i32], i: usize, y: &[i32], j: usize) -> bool
    requires has_row { HasRow (table n x.now) i × HasRow (table n y.now) j × (is_card n ≡ true) × (radius ≤ 43000) }
    requires small { Small (row (table n x.now) i).shade × Small (row (table n y.now) j).shade }
    ensures { result ≡ stand_near radius (row (table n x.now) i) (row (table n y.now) j) }
{
    match n {
        2 => near_by_at(2, radius, x, i, y, j),
        _ => near_by_at(3, radius, x, i, y, j),
    }
}

// Whether row i + 1 of x and row j + 1 of y, neither of them withdrawn, qualify.
fn counts_near(n: u32, q: Query, x: &[i32], i: usize, y: &[i32], j: usize) -> bool
    requires has_row { HasRow (table n x.now) i × HasRow (table n y.now) j }
    requires i_value { (withdrawn (row (table n x.now) i) ≡ false) × (withdrawn (row (table n y.now) j) ≡ false) }
    requires small_pairs { SmallPairs q (table n x.now) (table n y.now) }
    ensures { result ≡ (terms q).near (row (table n x.now) i) (row (table n y.now) j) }
{
    let first = tables::shade(n, x, i);
    let second = tables::shade(n, y, j);
    let more = tolerances::more(q);
    let less = tolerances::less(q);
    distance::near_small(q.radius, more, less, first, second)
}

// Whether none of y's rows k + 1 to e lies near row i + 1 of x; no, too, where k is not a multiple of 16, so that it
// looks at no row twice, and where the reach is so large that few such rows would pass. The code is chosen by n.
fn all_far(n: u32, q: Query, x: &[i32], i: usize, y: &[i32], k: usize, e: usize) -> bool
    requires has_row { HasRow (table n x.now) i × (k ≤ e) × HasRows (table n y.now) e }
    requires small_pairs { SmallPairs q (table n x.now) (table n y.now) }
    ensures { result ≡ true
        → NoneNear (terms q) (table n x.now) i (table n y.now) k e }
{
    let reach = tolerances::reach(q);
    if (k % 16 != 0) | (1500 < reach) {
        return false;
    }
    match n {
        2 => !some_beside(2, q, x, i, y, k, e),
        _ => !some_beside(3, q, x, i, y, k, e),
    }
}

// The first of y's m live rows from row j + 1 on that may lie near row i + 1 of x, a live row too, counted from 0; m
// where none may. Without tolerances it does. The loop moves on by 16 rows or by one, and is as short as the compiler
// wants it, to make one for each card.
fn next_candidate(n: u32, q: Query, x: &[i32], i: usize, y: &[i32], m: usize, j: usize) -> usize
    requires has_row { HasRow (table n x.now) i × (withdrawn (row (table n x.now) i) ≡ false)
        × Live (table n y.now) m × (j ≤ m) }
    requires small_pairs { SmallPairs q (table n x.now) (table n y.now) }
    ensures { Candidate q (table n x.now) i (table n y.now) m j result }
{
    let wide = tolerances::wide(q);
    let mut k = j;
    while k < m {
        let e = m.min(k + 16);
        if all_far(n, q, x, i, y, k, e) {
            k = e;
        } else if near_by(n, wide, x, i, y, k) {
            return k;
        } else {
            k += 1;
        }
    }
    m
}

// The first that lies near it, looked for row by row; m where none does.
fn next_counted(n: u32, q: Query, x: &[i32], i: usize, y: &[i32], m: usize, j: usize) -> usize
    requires has_row { HasRow (table n x.now) i × (withdrawn (row (table n x.now) i) ≡ false)
        × Live (table n y.now) m × (j ≤ m) }
    requires small_pairs { SmallPairs q (table n x.now) (table n y.now) }
    ensures { NextNear (terms q) (table n x.now) i (table n y.now) m j result }
{
    for k in j..m {
        if counts_near(n, q, x, i, y, k) {
            return k;
        }
    }
    m
}

// The first of y's m live rows from row j + 1 on that lies near row i + 1 of x, a live row too, counted from 0; m where
// none does. No score is looked at, and a query without tolerances does not pay for them. An `Option` is no plainer:
// the rows before the one found are far, and where none is found those before m (`NextNear`).
pub fn next_near(n: u32, q: Query, x: &[i32], i: usize, y: &[i32], m: usize, j: usize) -> usize
    requires has_row { HasRow (table n x.now) i × (withdrawn (row (table n x.now) i) ≡ false)
        × Live (table n y.now) m × (j ≤ m) }
    requires small_pairs { SmallPairs q (table n x.now) (table n y.now) }
    ensures { NextNear (terms q) (table n x.now) i (table n y.now) m j result }
{
    let k = next_candidate(n, q, x, i, y, m, j);
    if tolerances::both(q) == 0 {
        return k;
    }
    next_counted(n, q, x, i, y, m, k)
}
