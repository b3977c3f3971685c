// What a whole query comes to: what its opening and its reading are refused by, the record when its reading ended, and
// its list.
#![tactic(auto)]

ghost use Rattle.std.specs.Prelude.{◌≡◌, [], ◌∷◌};
ghost use Rattle.rules.specs.Numbers.{said, refusal, short_slice, first, unless, code};
ghost use Rattle.outcomes.specs.Checked.{checked};

use codes::unless;
use rules::{Answer, Pair, Query, Refusal, Session};

// Whether an answer is a refusal, and which.
pub fn check_answer(a: Answer) -> Result<(), Refusal>
    ensures code { code result ≡ refusal (said a) }
    ensures check { result ≡ checked a }
{
    match a {
        Answer::Refused(refusal) => Err(refusal),
        _ => Ok(()),
    }
}

// What a query is refused by, of what its opening and its reading were: before them, a query's numbers may not all be
// there; behind them, the place for the answer may be too short.
#[tactic(auto, using(codes::specs::Steps::passed, codes::specs::Steps::stopped))]
pub fn check_asked(
    there: bool,
    opening: Result<(), Refusal>,
    reading: Result<(), Refusal>,
    room: bool,
) -> Result<(), Refusal>
    ensures { code result
        ≡ first (unless there short_slice ∷ code opening ∷ code reading ∷ unless room short_slice ∷ []) }
{
    unless(there, Refusal::ShortSlice)?;
    opening?;
    reading?;
    unless(room, Refusal::ShortSlice)
}

// A record of which no read reads a block more, and what the read that did not is refused by, unless it is settled.
#[derive(Clone, Copy)]
pub struct ReadEnd {
    pub end: Result<(), Refusal>,
    pub session: Session,
}

// Pairs, from the front, in a record's 64 places, and how many they are. Fixed memory: no list.
#[derive(Clone, Copy)]
pub struct TakenOut {
    pub pairs: [Pair; rules::PLACES],
    pub count: usize,
}

// All that a whole query comes to.
#[derive(Clone, Copy)]
pub struct Outcome {
    pub query: Query,
    // What the opening is refused by, and what the last read is.
    pub opening: Result<(), Refusal>,
    pub reading: Result<(), Refusal>,
    // The record when its reading ended.
    pub session: Session,
    // The list, from the front, and how many pairs it has, in fixed memory.
    pub pairs: [Pair; rules::PLACES],
    pub count: usize,
}
