// Show: the rows last read, as a part of the table that they came from.
#![tactic(auto)]

ghost use Rattle.std.specs.Prelude.{◌≡◌, ◌*◌, ◌-◌, ◌≤◌, ◌<◌, ◌/◌};
ghost use Rattle.rules.specs.Tables.{table, most_rows, part, width, HasRows};
ghost use Rattle.rules.specs.Session.{lent_table};
ghost use Rattle.rules.specs.Take.{last_block};
ghost use Rattle.rules.specs.Calls.{show_call, moved_on, show_place};

use rules::Session;

// The rows of a table from the first to the last of its last block down to a depth.
fn last_rows<'a>(n: u32, t: &'a [i32], block: u32, depth: u32) -> &'a [i32]
    requires { (0 < block) × (0 < depth) × (depth ≤ most_rows) × HasRows (table n t.now) depth }
    ensures result_value { result.now ≡ (part (table n t.now) (last_block block depth)
        (depth - last_block block depth)).numbers }
    ensures ref_ptr_value { result.ref_ptr ≡ moved_on t.entry.ref_ptr (width n * last_block block depth) }
{
    let a = ((depth - 1) / block * block) as usize;
    tables::rows(n, t, a, depth as usize)
}

// Show: the rows last read, as a part of the table that they came from; the empty part at the front of the field table
// where nothing was read or the call is refused by 5 or 4.
pub fn show<'a>(f: &'a [i32], t: &'a [i32], s: Session) -> &'a [i32]
    ensures result_value { result.now ≡ show_call (lent_table s f.now) (lent_table s t.now) s }
    ensures ref_ptr_value { result.ref_ptr
        ≡ show_place (lent_table s f.now) (lent_table s t.now) f.entry.ref_ptr
        t.entry.ref_ptr s }
{
    if checks::check_lent(pair_checks::fits(&s), s.rows, f, t).is_err() {
        return &f[..0];
    }
    match s.last {
        1 => last_rows(s.rows.card, f, s.query.block, s.depth.field.0),
        2 => last_rows(s.rows.card, t, s.query.block, s.depth.trim.0),
        _ => &f[..0],
    }
}
