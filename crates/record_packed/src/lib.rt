// The session's whole record laid out flat in a lent slice of numbers.
#![tactic(auto)]

ghost use Rattle.std.specs.Prelude.{◌≡◌, ◌≤◌, length};
ghost use Rattle.record_layout.specs.Flat.{flat_size, laid_in};

use record_layout::{PAIR_SIZE, PAIRS};
use rules::Session;

// A record laid out in the first 210 numbers; the rest is left as it was.
pub fn pack(s: Session, out: &mut [u32])
    requires { flat_size ≤ length out.old }
    ensures { out.new ≡ laid_in out.old s }
{
    record_ends::put_head(out, s);
    for (i, p) in s.pairs.iter().enumerate() {
        record_layout::put_pair(out, PAIRS + PAIR_SIZE * i, *p);
    }
    record_ends::put_tail(out, s);
}
