// The checks of an opening, in their order: the query's, then those of the two tables.
#![tactic(auto)]

ghost use Rattle.std.specs.Prelude.{◌≡◌};
ghost use Rattle.rules.specs.Numbers.{code};
ghost use Rattle.rules.specs.Tables.{table};
ghost use Rattle.rules.specs.Calls.{open_code};
ghost use Rattle.opening_checks.specs.Codes.{tables_code};

use codes::unless;
use rules::{Query, Refusal};

// What two tables are refused by, of m and of n coordinates: 10 and 4, field and trim, then 15.
#[tactic(auto, using(crate::specs::Codes::steps), unfolding(crate::specs::Codes::tables_code))]
fn check_tables(m: u32, f: &[i32], n: u32, t: &[i32]) -> Result<(), Refusal>
    ensures { code result ≡ tables_code (table m f.now) (table n t.now) }
{
    unless(cards::is_card(m), Refusal::WrongKind)?;
    unless(cards::is_card(n), Refusal::WrongKind)?;
    unless(tables::size_fits(m, f), Refusal::TableSize)?;
    unless(tables::size_fits(n, t), Refusal::TableSize)?;
    unless(m == n, Refusal::OtherCard)
}

// What an opening is refused by: 1, 2, 3, 12, 16, 10, 4, 15.
#[tactic(auto, using(crate::specs::Codes::steps))]
pub fn check_opening(q: Query, m: u32, f: &[i32], n: u32, t: &[i32]) -> Result<(), Refusal>
    ensures { code result ≡ open_code q (table m f.now) (table n t.now) }
{
    query_checks::check_query(q)?;
    check_tables(m, f, n, t)
}
