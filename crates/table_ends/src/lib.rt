// What the ceiling asks of a table: whether it is read out; whether it is empty.
#![tactic(auto)]

ghost use Rattle.std.specs.Prelude.{◌≡◌};
ghost use Rattle.rules.specs.Session.{read_out, is_empty};
ghost use Rattle.rules.specs.Tables.{table, HasRows};
ghost use Rattle.table_ends.specs.BothRead.{RowsRead};

// Whether a table is read out: all its rows are read, or a withdrawn one is. Scores fall, so the last row read tells.
#[tactic(auto, using(session_laws::specs::ReadOut::within_last), unfolding(rules::specs::Session::read_out))]
pub fn read_out(n: u32, t: &[i32], rows: u32, depth: u32) -> bool
    requires { RowsRead (table n t.now) depth }
    ensures { result ≡ read_out (table n t.now) rows depth }
{
    depth == rows || (0 < depth && tables::is_withdrawn(n, t, depth as usize - 1))
}

// Whether a table is empty: it has no rows, or its first row was read and is withdrawn.
#[tactic(auto, unfolding(rules::specs::Session::is_empty))]
pub fn is_empty(n: u32, t: &[i32], rows: u32, depth: u32) -> bool
    requires { HasRows (table n t.now) depth }
    ensures { result ≡ is_empty (table n t.now) rows depth }
{
    rows == 0 || (0 < depth && tables::is_withdrawn(n, t, 0))
}
