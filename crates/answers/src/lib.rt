// What a call of the session answers, as one signed number.
#![tactic(auto)]

ghost use Rattle.std.specs.Prelude.{◌≡◌, ◌<◌, ◌^◌, pos, neg_ℤ};
ghost use Rattle.rules.specs.Numbers.{short_slice, IsRefusal, said, refused, signed};
ghost use Rattle.answers.specs.Handed.{said_or_refused, handed_on};

use rules::{Answer, Refusal};

// Minus a number.
pub fn minus(n: u32) -> i32
    requires { n < 2 ^ 31 }
    ensures { result ≡ neg_ℤ (pos n) }
{
    -(n as i32)
}

// Which answer it is, or minus the refusal's number.
#[tactic(auto, using(rules::specs::Numbered::number_range))]
fn number(answer: Answer) -> i32
    ensures { result ≡ signed (said answer) }
{
    match answer {
        Answer::Refused(refusal) => minus(u32::from(refusal)),
        Answer::Opened => 0,
        Answer::Read => 0,
        Answer::Settled => 1,
        Answer::Given(_) => 2,
        Answer::NotYet => 3,
        Answer::Finished => 4,
    }
}

// What a call answered as a number, or minus a number that it is refused by, as it comes.
pub fn told(answer: Result<Answer, u32>) -> i32
    requires { IsRefusal (handed_on answer) }
    ensures { result ≡ signed (said_or_refused answer) }
{
    match answer {
        Ok(answer) => number(answer),
        Err(refusal) => minus(refusal),
    }
}

// A lent slice is too short for what it is lent for.
pub fn short() -> i32
    ensures { result ≡ signed (said (refused short_slice)) }
{
    number(Answer::Refused(Refusal::ShortSlice))
}
