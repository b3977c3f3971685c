// Read: one block more of two lent tables. The record is a value that goes in and comes back; whatever comes in is
// checked.
#![tactic(auto)]

ghost use Rattle.std.specs.Prelude.{◌≡◌, ◌≤◌, length, take};
ghost use Rattle.lists.specs.Words.{All};
ghost use Rattle.rules.specs.Numbers.{code};
ghost use Rattle.rules.specs.Calls.{read_call};
ghost use Rattle.session_laws.specs.Calls.{Accepted};
ghost use Rattle.keys.specs.Held.{Narrow, Keyed};
ghost use Rattle.keys.specs.Places.{places_of};
ghost use Rattle.checks.specs.Codes.{LastHeld};
ghost use Rattle.reading.specs.Answers.{read_answer};
ghost use Rattle.rules.specs.Session.{lent_table};

use keys::Keys;
use rules::{Answer, PLACES, Pair, Refusal, Session, Step};

// What a read answers: what the checks refuse it by; settled; or a block is read, unless 6 or 7 refuses it.
#[tactic(auto, using(rules::specs::Numbered::refused_is), unfolding(crate::specs::Answers::read_answer))]
fn read_answer(check: Result<(), Refusal>, f: &[i32], t: &[i32], s: Session, last: Pair) -> Answer
    requires { code check ≡ 0 → Accepted (lent_table s f.now) (lent_table s t.now) s × LastHeld s last }
    ensures { result ≡ read_answer (code check) (lent_table s f.now) (lent_table s t.now) s }
{
    if let Err(refusal) = check {
        return Answer::Refused(refusal);
    }
    if settling::is_settled(f, t, s, last) {
        return Answer::Settled;
    }
    match choosing::check_new_block(f, t, s) {
        Ok(()) => Answer::Read,
        Err(refusal) => Answer::Refused(refusal),
    }
}

// Read: settled, or one block of the table that is next, which meets the blocks already read of the other. While blocks
// meet, the pairs held are keys.
pub fn read(f: &[i32], t: &[i32], s: Session) -> Step
    ensures { result ≡ read_call (lent_table s f.now) (lent_table s t.now) s }
{
    let mut r = s;
    let check = checks::check_call(pair_checks::fits(&r), r.rows, r.depth, f, t);
    let last = r.pairs[(r.held as usize + 63) % 64];
    let answer = read_answer(check, f, t, r, last);
    if let Answer::Read = answer {
        let mut keys = Keys {
            places: [0; PLACES],
            held: 0,
        };
        keys.hold(&r.pairs[..r.held as usize]);
        let after = next_block::read_block(f, t, r, &mut keys);
        r.depth = after.depth;
        r.last = after.last;
        r.held = keys.held() as u32;
        r.joined = after.joined;
        keys.fill(&mut r.pairs);
    }
    Step { answer, session: r }
}
