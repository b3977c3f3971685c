// The rules' checks 6 and 7 of a table's rows. Shades have n coordinates.
#![tactic(auto)]

ghost use Rattle.std.specs.Prelude.{◌≡◌, ◌+◌, ◌≤◌, ◌<◌};
ghost use Rattle.rules.specs.Tables.{table, HasRow, HasRows, most_rows, row_in_range, row_in_order};
ghost use Rattle.rules.specs.Numbers.{code};
ghost use Rattle.rules.specs.Calls.{row_code, rows_code};

use codes::unless;
use rules::Refusal;
use tables::number;

fn row_in_range(n: u32, t: &[i32], i: usize) -> bool
    requires { (i < most_rows) × HasRow (table n t.now) i }
    ensures { result ≡ row_in_range (table n t.now) i }
{
    let numbers = row_ranges::in_range(number(n, t, i, 0), number(n, t, i, 1));
    let coordinates = row_ranges::shade_fits(tables::shade(n, t, i));
    numbers & coordinates
}

// Whether the score of row i + 1 is at most that of the row before.
#[tactic(auto, using(rules::specs::Widths::rows_row), unfolding(rules::specs::Tables::row_in_order))]
fn in_order(n: u32, t: &[i32], i: usize) -> bool
    requires { (i < most_rows) × HasRow (table n t.now) i }
    ensures { result ≡ row_in_order (table n t.now) i }
{
    if i == 0 {
        return true;
    }
    number(n, t, i, 1) <= number(n, t, i - 1, 1)
}

// What row i + 1 of a table is refused by, 6 before 7.
#[tactic(auto, using(crate::proofs::Rows::row_steps), unfolding(rules::specs::Calls::row_code))]
fn check_row(n: u32, t: &[i32], i: usize) -> Result<(), Refusal>
    requires { (i < most_rows) × HasRow (table n t.now) i }
    ensures { code result ≡ row_code (table n t.now) i }
{
    unless(row_in_range(n, t, i), Refusal::RowLimit)?;
    unless(in_order(n, t, i), Refusal::RowOrder)
}

#[tactic(auto, using(crate::proofs::Rows::rows_steps), unfolding(rules::specs::Calls::rows_code))]
fn check_rows_at(n: u32, t: &[i32], a: usize, m: usize) -> Result<(), Refusal>
    requires { (a + m ≤ most_rows) × HasRows (table n t.now) (a + m) }
    ensures { code result ≡ rows_code (table n t.now) a m }
{
    for i in 0..m {
        check_row(n, t, a + i)?;
    }
    Ok(())
}

// What the first of rows a + 1 to a + m that is refused is refused by. The code is chosen by n, so that the compiler
// knows how many numbers a row has, and for rows from the first on, so that it knows which row has none before it.
pub fn check_rows(n: u32, t: &[i32], a: usize, m: usize) -> Result<(), Refusal>
    requires { (a + m ≤ most_rows) × HasRows (table n t.now) (a + m) }
    ensures { code result ≡ rows_code (table n t.now) a m }
{
    match (n, a) {
        (2, 0) => check_rows_at(2, t, 0, m),
        (2, _) => check_rows_at(2, t, a, m),
        (3, 0) => check_rows_at(3, t, 0, m),
        (3, _) => check_rows_at(3, t, a, m),
        _ => check_rows_at(n, t, a, m),
    }
}
