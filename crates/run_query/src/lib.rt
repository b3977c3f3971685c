// One whole query over two lent tables, run once: opened, read until settled, taken until finished.
#![tactic(auto)]

ghost use Rattle.std.specs.Prelude.{◌≡◌};
ghost use Rattle.rules.specs.Tables.{field_table, trim_table};
ghost use Rattle.rules.specs.Session.{lent_table};
ghost use Rattle.outcomes.specs.Outcomes.{read_end, taken_out, query_outcome};

use outcomes::{Outcome, ReadEnd, TakenOut, check_answer};
use rules::{Answer, Kinds, NO_PAIR, PLACES, Query, Session};

// Reads until settled.
fn read_on(f: &[i32], t: &[i32], s: Session) -> ReadEnd
    ensures { result ≡ read_end (lent_table s f.now) (lent_table s t.now) s }
{
    let mut at = s;
    // how many reads it takes nobody counts
    loop {
        let r = reading::read(f, t, at);
        let Answer::Read = r.answer else {
            return ReadEnd {
                end: check_answer(r.answer),
                session: at,
            };
        };
        at = r.session;
    }
}

// Takes until finished.
fn take_on(f: &[i32], t: &[i32], s: Session) -> TakenOut
    ensures { result ≡ taken_out (lent_table s f.now) (lent_table s t.now) s }
{
    let mut pairs = [NO_PAIR; PLACES];
    let mut left = s;
    for n in 0..PLACES {
        let r = taking::take(f, t, left);
        let Answer::Given(p) = r.answer else {
            return TakenOut { pairs, count: n };
        };
        pairs[n] = p;
        left = r.session;
    }
    TakenOut {
        pairs,
        count: PLACES,
    }
}

// Opens, reads until settled and takes until finished. A refused opening's record is zeros: reading it ends with 5, and
// no pair comes out.
pub fn run(q: Query, kinds: Kinds, f: &[i32], t: &[i32]) -> Outcome
    ensures { result ≡ query_outcome q (field_table kinds f.now) (trim_table kinds t.now) }
{
    let opened = opening::start(q, kinds, f, t);
    let read = read_on(f, t, opened.session);
    let taken = take_on(f, t, read.session);
    // an array can't be moved out of a field into a struct
    let pairs = taken.pairs;
    Outcome {
        query: q,
        opening: check_answer(opened.answer),
        reading: read.end,
        session: read.session,
        pairs,
        count: taken.count,
    }
}
