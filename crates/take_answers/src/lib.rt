// What a take answers: the first held pair, finished, or not yet.
#![tactic(auto)]

ghost use Rattle.std.specs.Prelude.{◌≡◌, true};
ghost use Rattle.std.specs.Result.{is_ok};
ghost use Rattle.rules.specs.Take.{gives_pair, finished};
ghost use Rattle.session_laws.specs.Calls.{Accepted};
ghost use Rattle.take_answers.specs.Answers.{take_answer, if_passed};
ghost use Rattle.rules.specs.Session.{lent_table};

use rules::{Answer, Counts, FieldRows, Session, TrimRows};

// Whether a take answers the first held pair.
fn gives_pair(f: &[i32], t: &[i32], s: Session) -> bool
    requires { Accepted (lent_table s f.now) (lent_table s t.now) s }
    ensures { result ≡ gives_pair (lent_table s f.now) (lent_table s t.now) s }
{
    if s.held == 0 {
        return false;
    }
    let rows = Counts {
        field: FieldRows(s.rows.field.0),
        trim: TrimRows(s.rows.trim.0),
    };
    securing::is_secured(
        f,
        t,
        s.rows.card,
        rows,
        s.depth,
        s.query.weights,
        s.pairs[0],
    )
}

// Whether no further pair can come.
#[tactic(auto, using(table_ends::specs::BothRead::accepted_rows), unfolding(rules::specs::Take::finished))]
fn is_finished(f: &[i32], t: &[i32], s: Session) -> bool
    requires { Accepted (lent_table s f.now) (lent_table s t.now) s }
    ensures { result ≡ finished (lent_table s f.now) (lent_table s t.now) s }
{
    let n = s.rows.card;
    let l = s.rows.field.0;
    let m = s.rows.trim.0;
    let d = s.depth.field.0;
    let e = s.depth.trim.0;
    let none = tolerances::unsatisfiable(s.query, n);
    let empty = table_ends::is_empty(n, f, l, d) | table_ends::is_empty(n, t, m, e);
    let out = table_ends::read_out(n, f, l, d) & table_ends::read_out(n, t, m, e);
    (s.out == s.query.k) | (none | (empty | (out & (s.held == 0))))
}

// What a take answers, if its checks passed: the first held pair, if it is secured; else finished, or not yet. What
// they refuse it by is handed on, whatever says it.
#[tactic(auto, unfolding(crate::specs::Answers::take_answer))]
pub fn take_answer<R: Copy>(
    check: Result<(), R>,
    f: &[i32],
    t: &[i32],
    s: Session,
) -> Result<Answer, R>
    requires { is_ok check ≡ true → Accepted (lent_table s f.now) (lent_table s t.now) s }
    ensures { result ≡ if_passed check (take_answer 0 (lent_table s f.now) (lent_table s t.now) s) }
{
    if let Err(refusal) = check {
        return Err(refusal);
    }
    if gives_pair(f, t, s) {
        return Ok(Answer::Given(s.pairs[0]));
    }
    if is_finished(f, t, s) {
        return Ok(Answer::Finished);
    }
    Ok(Answer::NotYet)
}
