// The ceiling: the threshold of the rules' sessions.
#![tactic(auto)]

ghost use Rattle.std.specs.Prelude.{◌≡◌};
ghost use Rattle.rules.specs.Session.{ceiling};
ghost use Rattle.rules.specs.Tables.{table};
ghost use Rattle.table_ends.specs.BothRead.{BothRead};
ghost use Rattle.ceiling.specs.Bare.{bare};

use rules::{Counts, Weights};
use table_ends::read_out;

// The ceiling: the higher of HF + LT, unless trim is read out, and LF + HT, unless field is. Each score counts
// by its table's weight. Of a session it asks the card, the row counts, the depths and the weights alone.
#[tactic(auto, unfolding(rules::specs::Session::ceiling_by))]
pub fn threshold(f: &[i32], t: &[i32], n: u32, rows: Counts, depth: Counts, weights: Weights) -> u64
    requires { BothRead (table n f.now) (table n t.now) depth }
    ensures { result ≡ ceiling (table n f.now) (table n t.now) (bare n rows depth weights) }
{
    let d = depth.field.0;
    let e = depth.trim.0;
    let v = weights.field.0;
    let w = weights.trim.0;
    let hf = tables::weighted(v, n, f, 0);
    let lt = tables::weighted(w, n, t, e as usize - 1);
    let lf = tables::weighted(v, n, f, d as usize - 1);
    let ht = tables::weighted(w, n, t, 0);
    let trim_out = read_out(n, t, rows.trim.0, e);
    let field_out = read_out(n, f, rows.field.0, d);
    let a = tables::pick(trim_out, 0, hf + lt);
    let b = tables::pick(field_out, 0, lf + ht);
    a.max(b)
}
