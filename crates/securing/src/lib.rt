// Whether a held pair is secured: no unread pair can beat it.
#![tactic(auto)]

ghost use Rattle.std.specs.Prelude.{◌≡◌};
ghost use Rattle.rules.specs.Session.{secured};
ghost use Rattle.rules.specs.Tables.{table};
ghost use Rattle.table_ends.specs.BothRead.{BothRead};
ghost use Rattle.ceiling.specs.Bare.{bare};

use ceiling::threshold;
use rules::{Counts, Pair, Weights};
use table_ends::read_out;

// Whether both tables are read out, or else the ceiling is at most the pair's sum.
pub fn is_secured(
    f: &[i32],
    t: &[i32],
    n: u32,
    rows: Counts,
    depth: Counts,
    weights: Weights,
    p: Pair,
) -> bool
    requires { BothRead (table n f.now) (table n t.now) depth }
    ensures { result ≡ secured (table n f.now) (table n t.now)
        (bare n rows depth weights) p }
{
    let field_out = read_out(n, f, rows.field.0, depth.field.0);
    let trim_out = read_out(n, t, rows.trim.0, depth.trim.0);
    if field_out & trim_out {
        return true;
    }
    threshold(f, t, n, rows, depth, weights) <= u64::from(p.sum)
}
