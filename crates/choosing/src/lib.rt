// Which table an unsettled session reads next, and what 6 and 7 say of its new block.
#![tactic(auto)]

ghost use Rattle.std.specs.Prelude.{◌≡◌, false, cond, ◌+◌, ◌-◌, ◌≤◌, ◌<◌};
ghost use Rattle.rules.specs.Tables.{table, most_rows, weighted, HasRows};
ghost use Rattle.rules.specs.Session.{lent_table, settled};
ghost use Rattle.rules.specs.Read.{score_drop, field_next, next_depth};
ghost use Rattle.rules.specs.Numbers.{code};
ghost use Rattle.rules.specs.Calls.{new_block_code};
ghost use Rattle.session_laws.specs.Calls.{Accepted};

use rules::{Refusal, Session};

// How far a table's score, by its weight, has dropped from its first row to the last row read.
fn drop_of(weight: u32, n: u32, t: &[i32], depth: u32) -> u64
    requires { (0 < depth) × HasRows (table n t.now) depth }
    ensures { result ≡ score_drop (weighted weight) (table n t.now) depth }
{
    let high = tables::weighted(weight, n, t, 0);
    let low = tables::weighted(weight, n, t, depth as usize - 1);
    high.saturating_sub(low)
}

// Whether the field table is read next.
#[tactic(auto, unfolding(rules::specs::Read::field_next_by))]
pub fn field_next(f: &[i32], t: &[i32], s: Session) -> bool
    requires { Accepted (lent_table s f.now) (lent_table s t.now) s }
    ensures { result ≡ field_next (lent_table s f.now) (lent_table s t.now) s }
{
    let d = s.depth.field.0;
    let e = s.depth.trim.0;
    if d == 0 {
        return true;
    }
    if e == 0 {
        return false;
    }
    if table_ends::read_out(s.rows.card, t, s.rows.trim.0, e) {
        return true;
    }
    if table_ends::read_out(s.rows.card, f, s.rows.field.0, d) {
        return false;
    }
    let x = drop_of(s.query.weights.field.0, s.rows.card, f, d);
    let y = drop_of(s.query.weights.trim.0, s.rows.card, t, e);
    if x < y {
        return true;
    }
    if y < x {
        return false;
    }
    d <= e
}

// The depth that a read leads to: one block further, or all rows.
pub fn next_depth(block: u32, rows: u32, depth: u32) -> u32
    requires { (block ≤ 1024) × (depth ≤ most_rows) }
    ensures { result ≡ next_depth block rows depth }
{
    (depth + block).min(rows)
}

// What 6 and 7 say of the new block, of the table that is read next.
pub fn check_new_block(f: &[i32], t: &[i32], s: Session) -> Result<(), Refusal>
    requires { Accepted (lent_table s f.now) (lent_table s t.now) s
        × (settled (lent_table s f.now) (lent_table s t.now) s ≡ false) }
    ensures { code result ≡ new_block_code (lent_table s f.now) (lent_table s t.now) s }
{
    let field = field_next(f, t, s);
    let rows = tables::pick(field, s.rows.field.0, s.rows.trim.0);
    let d = tables::pick(field, s.depth.field.0, s.depth.trim.0);
    let e = next_depth(s.query.block, rows, d);
    let from = d as usize;
    let n = (e - d) as usize;
    if field {
        return row_checks::check_rows(s.rows.card, f, from, n);
    }
    row_checks::check_rows(s.rows.card, t, from, n)
}
