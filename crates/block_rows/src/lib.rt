// Rows of blocks, each a part of its table: the pair of two of them, and how many of a block are not withdrawn. Shades
// have n coordinates.
#![tactic(auto)]

ghost use Rattle.std.specs.Prelude.{◌≡◌, true, ◌+◌, ◌<◌};
ghost use Rattle.rules.specs.Tables.{table, most_rows, row_in_range, terms, pair_at, HasRow};
ghost use Rattle.session_laws.specs.Record.{QueryFits};
ghost use Rattle.keys.specs.Held.{Narrow};
ghost use Rattle.near_rows.specs.Live.{Live};
ghost use Rattle.block_rows.specs.Parts.{at, WithdrawnBelow};

use rules::{Pair, Query};

// The pair of row i + 1 of x and row j + 1 of y, each score by its table's weight; a and c rows stand before x and y in
// their tables. Two weighted scores of rows that passed 6 add up to a small sum.
pub fn pair_at(
    n: u32,
    q: Query,
    x: &[i32],
    a: usize,
    i: usize,
    y: &[i32],
    c: usize,
    j: usize,
) -> Pair
    requires query_fits { QueryFits q × (row_in_range (table n x.now) i ≡ true)
        × (row_in_range (table n y.now) j ≡ true) }
    requires has_row { HasRow (table n x.now) i × HasRow (table n y.now) j
        × (a + i < most_rows) × (c + j < most_rows) }
    ensures { (result ≡ pair_at (terms q) (at a (table n x.now)) (at c (table n y.now)) i j)
        × Narrow result }
{
    let s = tables::weighted(q.weights.field.0, n, x, i);
    let t = tables::weighted(q.weights.trim.0, n, y, j);
    Pair {
        sum: (s + t) as u32,
        field: (a + i + 1) as u32,
        trim: (c + j + 1) as u32,
    }
}

// How many rows of x are not withdrawn: withdrawn rows stand at the end.
pub fn live_rows(n: u32, x: &[i32]) -> usize
    requires { WithdrawnBelow (table n x.now) }
    ensures { Live (table n x.now) result }
{
    for i in (0..tables::row_count(n, x)).rev() {
        if !tables::is_withdrawn(n, x, i) {
            return i + 1;
        }
    }
    0
}
