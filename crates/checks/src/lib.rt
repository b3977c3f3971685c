// What calls are refused by: 5 of a record, 4 of the lent slices, then 6 and 7 of the rows read. Here and above, the
// slices and the record stay parameters of their own, as the rules' calls have them (`read_call f t s`): a struct of
// them is no plainer, since each function takes it apart again.
#![tactic(auto)]

ghost use Rattle.std.specs.Prelude.{◌≡◌, true};
ghost use Rattle.rules.specs.Tables.{table};
ghost use Rattle.rules.specs.Numbers.{code};
ghost use Rattle.rules.specs.Calls.{same_size_code};
ghost use Rattle.checks.specs.Codes.{DepthsFit, lent_of, call_of};

use codes::unless;
use rules::{Counts, Refusal, TwoTables};

// 4 where a slice is not of the row count at opening.
#[tactic(auto, unfolding(rules::specs::Calls::same_size_code))]
fn check_size(rows: u32, n: u32, t: &[i32]) -> Result<(), Refusal>
    ensures { code result ≡ same_size_code rows (table n t.now) }
{
    let same = tables::rows_lent(n, t) == rows as usize;
    unless(tables::size_fits(n, t) & same, Refusal::TableSize)
}

// 5, unless the record passed it, then 4 of either table.
#[tactic(auto, using(crate::specs::Codes::steps), unfolding(crate::specs::Codes::lent_of))]
pub fn check_lent(fits: bool, rows: TwoTables, f: &[i32], t: &[i32]) -> Result<(), Refusal>
    ensures { code result ≡ lent_of fits rows f.now t.now }
{
    unless(fits, Refusal::BadRecord)?;
    check_size(rows.field.0, rows.card, f)?;
    check_size(rows.trim.0, rows.card, t)
}

// 5, 4, then 6 and 7 over the rows up to the depths, field first. Of the record its row counts and depths are handed
// in, and whether it passed 5.
#[tactic(auto, using(crate::specs::Codes::steps), unfolding(crate::specs::Codes::call_of))]
pub fn check_call(
    fits: bool,
    rows: TwoTables,
    depth: Counts,
    f: &[i32],
    t: &[i32],
) -> Result<(), Refusal>
    requires { fits ≡ true → DepthsFit rows depth }
    ensures { code result ≡ call_of fits rows depth f.now t.now }
{
    check_lent(fits, rows, f, t)?;
    row_checks::check_rows(rows.card, f, 0, depth.field.0 as usize)?;
    row_checks::check_rows(rows.card, t, 0, depth.trim.0 as usize)
}
