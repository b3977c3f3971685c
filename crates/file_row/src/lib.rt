// A row of a strict file: its columns, read, and the checks of what was read.
#![tactic(auto)]

ghost use Rattle.std.specs.Prelude.{◌≡◌, ◌+◌, ◌≤◌, ℤ, length};
ghost use Rattle.rules.specs.Tables.{width};
ghost use Rattle.rules.specs.Numbers.{code};
ghost use Rattle.rules.specs.File.{column_start, row_bytes, number_at};
ghost use Rattle.file_row.specs.Held.{follows, columns_row, row_held, held_row_code, read_row_code};

use codes::unless;
use column::{column_at, formed};
use row_ranges::{coordinate_fits, in_range};
use rules::Refusal;

// What is read of a row, 0 being the number of a column that is not formed as it must be: whether its numbers keep
// their ranges, its score, and where its columns end.
#[derive(Clone, Copy)]
pub struct Row {
    pub inside: bool,
    pub score: i32,
    pub end: usize,
}

// The columns that rows of every card have, of a row that begins at `o`: pattern number, score, a and b. In Ok where
// all are formed as they must be, else in Err.
#[tactic(auto, unfolding(rules::specs::File::column_start))]
fn read_front(bytes: &[u8], o: usize) -> Result<Row, Row>
    requires { o + column_start (width 2) ≤ length bytes.now }
    ensures { result ≡ columns_row 2 bytes.now o }
{
    let pattern = column_at(bytes, o, 6, false);
    let score = column_at(bytes, o + 6, 6, false);
    let a = column_at(bytes, o + 12, 7, true);
    let b = column_at(bytes, o + 19, 7, true);
    let shade = coordinate_fits(0, a.unwrap_or(0)) & coordinate_fits(1, b.unwrap_or(0));
    let row = Row {
        inside: in_range(pattern.unwrap_or(0), score.unwrap_or(0)) & shade,
        score: score.unwrap_or(0),
        end: o + 26,
    };
    formed(
        pattern.is_some() & score.is_some() & a.is_some() & b.is_some(),
        row,
    )
}

// The columns of a row of n coordinates: those behind b hold one coordinate each. In Ok and Err likewise.
#[tactic(auto, using(crate::proofs::Rows::back_fits))]
fn read_columns(n: u32, bytes: &[u8], o: usize) -> Result<Row, Row>
    requires { (2 ≤ n) × (o + row_bytes n ≤ length bytes.now) }
    ensures { result ≡ columns_row n bytes.now o }
{
    let (mut fits, mut row) = match read_front(bytes, o) {
        Ok(row) => (true, row),
        Err(row) => (false, row),
    };
    for k in 2..n {
        let x = column_at(bytes, row.end, 6, false);
        fits &= x.is_some();
        row.inside &= coordinate_fits(k as usize, x.unwrap_or(0));
        row.end += 6;
    }
    formed(fits, row)
}

// The row of n coordinates that begins at `o`: in Ok where its columns and its LF are formed as they must be, else in
// Err.
#[tactic(auto, using(crate::proofs::Rows::read_steps))]
pub fn read_row(n: u32, bytes: &[u8], o: usize) -> Result<Row, Row>
    requires { (2 ≤ n) × (o + row_bytes n ≤ length bytes.now) }
    ensures { result ≡ row_held n bytes.now o }
{
    let row = read_columns(n, bytes, o)?;
    formed(bytes[row.end] == b'\n', row)
}

// Whether a score is at most the one before, if there is one.
fn follows(before: Option<i32>, score: i32) -> bool
    ensures { result ≡ follows before score }
{
    match before {
        Some(last) => score <= last,
        None => true,
    }
}

// What is read of a row is checked: 6, then 7.
#[tactic(auto, using(crate::proofs::Rows::number_steps), unfolding(crate::specs::Held::read_row_code))]
fn check_numbers(row: Row, before: Option<i32>) -> Result<(), Refusal>
    ensures { code result ≡ read_row_code row before }
{
    unless(row.inside, Refusal::RowLimit)?;
    unless(follows(before, row.score), Refusal::RowOrder)?;
    Ok(())
}

// The score of the row of n coordinates that begins at `o`, or what the row is refused by: 9, 6, 7 in this order.
// `before` is the score of the row before, if there is one.
#[tactic(auto, using(crate::proofs::Rows::check_steps))]
pub fn check_row(n: u32, bytes: &[u8], o: usize, before: Option<i32>) -> Result<i32, Refusal>
    requires { (2 ≤ n) × (o + row_bytes n ≤ length bytes.now) }
    ensures number { code result ≡ held_row_code n bytes.now o before }
    ensures score { (score : ℤ) → result ≡ Ok score → score ≡ number_at bytes.now o 1 }
{
    let row = read_row(n, bytes, o).map_err(|_| Refusal::BadColumn)?;
    check_numbers(row, before)?;
    Ok(row.score)
}
