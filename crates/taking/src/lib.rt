// Take: the next pair out of a session over two lent tables. The record is a value that goes in and comes back;
// whatever comes in is checked.
#![tactic(auto)]

ghost use Rattle.std.specs.Prelude.{◌≡◌};
ghost use Rattle.rules.specs.Numbers.{code};
ghost use Rattle.rules.specs.Calls.{take_call};
ghost use Rattle.session_laws.specs.Calls.{Accepted};
ghost use Rattle.take_answers.specs.Answers.{take_answer};
ghost use Rattle.rules.specs.Session.{lent_table};

use rules::{Answer, PLACES, Refusal, Session, Step};

// What a take answers, of what its checks came to: refused, or what `take_answers` says.
#[tactic(auto, using(rules::specs::Numbered::refused_is), unfolding(take_answers::specs::Answers::take_answer))]
fn checked_answer(check: Result<(), Refusal>, f: &[i32], t: &[i32], s: Session) -> Answer
    requires { code check ≡ 0 → Accepted (lent_table s f.now) (lent_table s t.now) s }
    ensures { result ≡ take_answer (code check) (lent_table s f.now) (lent_table s t.now) s }
{
    match take_answers::take_answer(check, f, t, s) {
        Ok(answer) => answer,
        Err(refusal) => Answer::Refused(refusal),
    }
}

// Take: the first held pair is answered and moved out, those behind it move up, and a place of zeros stands at the end;
// nothing else changes the record.
pub fn take(f: &[i32], t: &[i32], s: Session) -> Step
    ensures { result ≡ take_call (lent_table s f.now) (lent_table s t.now) s }
{
    let mut r = s;
    let check = checks::check_call(pair_checks::fits(&r), r.rows, r.depth, f, t);
    let answer = checked_answer(check, f, t, r);
    if let Answer::Given(_) = answer {
        r.pairs.copy_within(1.., 0);
        r.pairs[PLACES - 1] = rules::NO_PAIR;
        r.out += 1;
        r.held -= 1;
    }
    Step { answer, session: r }
}
