// Whether a session is settled.
#![tactic(auto)]

ghost use Rattle.std.specs.Prelude.{◌≡◌};
ghost use Rattle.rules.specs.Session.{lent_table, settled};
ghost use Rattle.session_laws.specs.Calls.{Accepted};
ghost use Rattle.checks.specs.Codes.{LastHeld};

use rules::{Counts, FieldRows, Pair, Session, TrimRows};

// Whether nothing unread can matter. `last` is the last held pair: of ranked pairs it decides.
#[tactic(auto, using(table_ends::specs::BothRead::accepted_rows), unfolding(rules::specs::Session::settled_by))]
pub fn is_settled(f: &[i32], t: &[i32], s: Session, last: Pair) -> bool
    requires { Accepted (lent_table s f.now) (lent_table s t.now) s × LastHeld s last }
    ensures { result ≡ settled (lent_table s f.now) (lent_table s t.now) s }
{
    let n = s.rows.card;
    if tolerances::unsatisfiable(s.query, n) {
        return true;
    }
    let l = s.rows.field.0;
    let m = s.rows.trim.0;
    let d = s.depth.field.0;
    let e = s.depth.trim.0;
    if table_ends::is_empty(n, f, l, d) | table_ends::is_empty(n, t, m, e) {
        return true;
    }
    if table_ends::read_out(n, f, l, d) & table_ends::read_out(n, t, m, e) {
        return true;
    }
    if s.out == s.query.k {
        return true;
    }
    if s.out + s.held != s.query.k {
        return false;
    }
    let rows = Counts {
        field: FieldRows(l),
        trim: TrimRows(m),
    };
    securing::is_secured(f, t, n, rows, s.depth, s.query.weights, last)
}
