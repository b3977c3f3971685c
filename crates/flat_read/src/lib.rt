// Read, of a session whose record is laid out flat in a lent slice.
#![tactic(auto)]

ghost use Rattle.std.specs.Prelude.{◌≡◌};
ghost use Rattle.flat_calls.specs.Calls.{read_number, read_leaves};

use record_layout::SIZE;
use rules::Answer;

// Read: the record that stands in the slice goes in; where a block was read, the record after it comes back there. Else
// it stands as it was.
pub fn read(f: &[i32], t: &[i32], lent: &mut [u32]) -> i32
    ensures value { result ≡ read_number f.now t.now lent.old }
    ensures lent_after { lent.new ≡ read_leaves f.now t.now lent.old }
{
    if lent.len() < SIZE {
        return answers::short();
    }
    let s = record_taken::unpack(lent);
    let step = reading::read(f, t, s);
    if let Answer::Read = step.answer {
        record_packed::pack(step.session, lent);
    }
    answers::told(Ok(step.answer))
}
