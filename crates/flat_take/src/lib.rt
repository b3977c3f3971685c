// Take, of a session whose record is laid out flat in a lent slice.
#![tactic(auto)]

ghost use Rattle.std.specs.Prelude.{◌≡◌, ◌≤◌, length};
ghost use Rattle.rules.specs.Numbers.{said};
ghost use Rattle.record_layout.specs.Flat.{pair_size};
ghost use Rattle.flat_calls.specs.Calls.{written_in, take_number, take_leaves, take_writes};

use record_layout::{PAIR_SIZE, SIZE};
use rules::Answer;

// The pair that an answer brings out, if it does, at the front of `pair`.
#[tactic(auto, unfolding(record_layout::specs::Flat::flat_pair))]
fn put_given(answer: Answer, pair: &mut [u32])
    requires { pair_size ≤ length pair.old }
    ensures { pair.new ≡ written_in pair.old (said answer) }
{
    if let Answer::Given(p) = answer {
        record_layout::put_pair(pair, 0, p);
    }
}

// Take: as read, and a pair brought out is written into `pair`.
pub fn take(f: &[i32], t: &[i32], lent: &mut [u32], pair: &mut [u32]) -> i32
    ensures value { result ≡ take_number f.now t.now lent.old pair.old }
    ensures lent_after { lent.new
        ≡ take_leaves f.now t.now lent.old pair.old }
    ensures pair_after { pair.new
        ≡ take_writes f.now t.now lent.old pair.old }
{
    if (lent.len() < SIZE) | (pair.len() < PAIR_SIZE) {
        return answers::short();
    }
    let s = record_taken::unpack(lent);
    let step = taking::take(f, t, s);
    if let Answer::Given(_) = step.answer {
        record_packed::pack(step.session, lent);
    }
    put_given(step.answer, pair);
    answers::told(Ok(step.answer))
}
