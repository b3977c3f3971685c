// Opening, of a session whose record is laid out flat in a lent slice. Refused, it leaves each number as it stood.
#![tactic(auto)]

ghost use Rattle.std.specs.Prelude.{◌≡◌};
ghost use Rattle.flat_calls.specs.Calls.{open_number, open_leaves};

use record_layout::{QUERY_SIZE, SIZE};
use rules::Answer;

// Opening: the query's numbers in, three or more, and the tables' kinds; a record out, where the opening is accepted.
pub fn start(query: &[u32], f: &[i32], t: &[i32], lent: &mut [u32]) -> i32
    ensures value { result ≡ open_number query.now f.now t.now lent.old }
    ensures lent_after { lent.new
        ≡ open_leaves query.now f.now t.now lent.old }
{
    if (query.len() < QUERY_SIZE) | (lent.len() < SIZE) {
        return answers::short();
    }
    let q = query_taken::query_in(query);
    let kinds = query_taken::kinds_in(query);
    let step = opening::start(q, kinds, f, t);
    if let Answer::Opened = step.answer {
        record_packed::pack(step.session, lent);
    }
    answers::told(Ok(step.answer))
}
