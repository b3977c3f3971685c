// The rows of a table and the rules' check 4 of them: what the session and file reading share. Others see rows through
// these functions, and not how many numbers a row has; n is how many of them are the coordinates of its shade.
// n and the slice stay two parameters: a struct of both is no plainer. Holding a slice, it can't be `Copy` and have a
// model, so a contract would say `table_of t.entry`, and of two tables, which share one n, that theirs is the same.
#![tactic(auto)]

ghost use Rattle.std.specs.Prelude.{◌≡◌, ◌+◌, ◌*◌, ◌-◌, ◌≤◌, ◌<◌, ◌^◌, cond, length};
ghost use Rattle.rules.specs.Tables.{table, width, num, row_count, HasRow, HasRows, first_rows, part, size_fits};
ghost use Rattle.rules.specs.Tables.{nat_of, row, withdrawn, weighted};
ghost use Rattle.rules.specs.Calls.{moved_on};

// The rows of the longest table, as a length.
const MOST_ROWS: usize = rules::MOST_ROWS as usize;

// How many numbers a row has: pattern number, score, and a shade of n coordinates.
pub fn width(n: u32) -> usize
    ensures { result ≡ width n }
{
    n as usize + 2
}

// How many rows a table has.
pub fn rows_lent(n: u32, t: &[i32]) -> usize
    ensures { result ≡ row_count (table n t.now) }
{
    t.len() / width(n)
}

// The same for each block that is met. The code is chosen by n: to divide by a number that the compiler does not know
// takes long.
pub fn row_count(n: u32, t: &[i32]) -> usize
    ensures { result ≡ row_count (table n t.now) }
{
    match n {
        2 => rows_lent(2, t),
        3 => rows_lent(3, t),
        _ => rows_lent(n, t),
    }
}

// Whether a slice is of whole rows, at most 65,535.
#[tactic(auto, unfolding(rules::specs::Tables::size_fits))]
pub fn size_fits(n: u32, t: &[i32]) -> bool
    ensures { result ≡ size_fits (table n t.now) }
{
    (t.len() % width(n) == 0) & (rows_lent(n, t) <= MOST_ROWS)
}

// Where row i + 1 begins, or the table ends.
fn start(n: u32, t: &[i32], i: usize) -> usize
    requires { HasRows (table n t.now) i }
    ensures { result ≡ width n * i }
{
    width(n) * i
}

// Rows a + 1 to e, as a part of their table.
pub fn rows(n: u32, t: &[i32], a: usize, e: usize) -> &[i32]
    requires { (a ≤ e) × HasRows (table n t.now) e }
    ensures result_value { (result.now ≡ (part (table n t.now) a (e - a)).numbers)
        × (row_count (table n result.now) ≡ e - a) }
    ensures ref_ptr_value { result.ref_ptr ≡ moved_on t.entry.ref_ptr (width n * a) }
{
    let from = start(n, t, a);
    let to = start(n, t, e);
    &t[from..to]
}

// The first m rows.
pub fn first_rows(n: u32, t: &[i32], m: usize) -> &[i32]
    requires { HasRows (table n t.now) m }
    ensures { result.now ≡ (first_rows m (table n t.now)).numbers }
{
    let to = start(n, t, m);
    &t[..to]
}

// Number j, from 0 on, of row i + 1.
pub fn number(n: u32, t: &[i32], i: usize, j: usize) -> i32
    requires { HasRow (table n t.now) i × (j < width n) }
    ensures { result ≡ num (table n t.now) i j }
{
    let o = start(n, t, i);
    t[o + j]
}

// Coordinate k, from 0 on, of row i + 1.
pub fn coordinate(n: u32, t: &[i32], i: usize, k: usize) -> i32
    requires { HasRow (table n t.now) i × (k < n) }
    ensures { result ≡ num (table n t.now) i (k + 2) }
{
    number(n, t, i, k + 2)
}

// The coordinates of row i + 1, as a part of the table.
#[tactic(auto, using(rules::specs::Widths::shade_length), unfolding(rules::specs::Tables::row))]
pub fn shade(n: u32, t: &[i32], i: usize) -> &[i32]
    requires { HasRow (table n t.now) i }
    ensures { (result.now ≡ (row (table n t.now) i).shade) × (length result.now ≡ n) }
{
    let from = start(n, t, i) + 2;
    let to = from + n as usize;
    &t[from..to]
}

// A number as one from 0 up: 0 where it is below.
pub fn natural(x: i32) -> u32
    ensures { result ≡ nat_of x }
{
    u32::try_from(x).unwrap_or(0)
}

// The pattern number of row i + 1; one below 0, which no checked table has, is 0.
#[tactic(auto, unfolding(rules::specs::Tables::row))]
pub fn pattern(n: u32, t: &[i32], i: usize) -> u32
    requires { HasRow (table n t.now) i }
    ensures { result ≡ (row (table n t.now) i).pattern }
{
    natural(number(n, t, i, 0))
}

// The score of row i + 1; one below 0, which no checked table has, is 0.
#[tactic(auto, using(crate::proofs::Naturals::nat_small), unfolding(rules::specs::Tables::row))]
pub fn score(n: u32, t: &[i32], i: usize) -> u32
    requires { HasRow (table n t.now) i }
    ensures { (result ≡ (row (table n t.now) i).score) × (result < 2 ^ 31) }
{
    natural(number(n, t, i, 1))
}

// A weight times the score of row i + 1, for every weight and every row: the sum of two such fits 64 bits.
#[tactic(auto, unfolding(rules::specs::Tables::weighted))]
pub fn weighted(weight: u32, n: u32, t: &[i32], i: usize) -> u64
    requires { HasRow (table n t.now) i }
    ensures { (result ≡ weighted weight (row (table n t.now) i)) × (result ≤ 4294967295 * 2147483647) }
{
    u64::from(weight) * u64::from(score(n, t, i))
}

// Whether row i + 1 is withdrawn: its score is 0.
#[tactic(auto, unfolding(rules::specs::Tables::withdrawn))]
pub fn is_withdrawn(n: u32, t: &[i32], i: usize) -> bool
    requires { HasRow (table n t.now) i }
    ensures { result ≡ withdrawn (row (table n t.now) i) }
{
    score(n, t, i) == 0
}

// The first of two values where the flag says so, else the second.
pub fn pick<T: Copy>(first: bool, a: T, b: T) -> T
    ensures { result ≡ cond first a b }
{
    if first { a } else { b }
}
