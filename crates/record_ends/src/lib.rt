// The session's record laid out flat in a lent slice of numbers, but for its pairs: the numbers in front of the pair
// places and behind them.
#![tactic(auto)]

ghost use Rattle.std.specs.Prelude.{◌≡◌, ◌≤◌, length};
ghost use Rattle.record_layout.specs.Flat.{field_weight_at, flat_size, laid_at, flat_head, flat_tail};

use record_layout::{FIELD_WEIGHT, PAIRS, SIZE, WORD};
use rules::Session;

// The numbers in front of the pair places.
#[tactic(auto, unfolding(record_layout::specs::Flat::flat_head))]
pub fn put_head(out: &mut [u32], s: Session)
    requires { flat_size ≤ length out.old }
    ensures { out.new ≡ laid_at 0 (flat_head s) out.old }
{
    out[..PAIRS].copy_from_slice(&[
        s.query.k,
        s.query.block,
        s.query.radius,
        s.rows.field.0,
        s.rows.trim.0,
        s.depth.field.0,
        s.depth.trim.0,
        s.last,
        s.out,
        s.held,
        (s.joined % WORD) as u32,
        (s.joined / WORD) as u32,
    ]);
}

// The two weights, the card, the two tolerances and the meaning, behind the pair places.
pub fn put_tail(out: &mut [u32], s: Session)
    requires { flat_size ≤ length out.old }
    ensures { out.new ≡ laid_at field_weight_at (flat_tail s) out.old }
{
    let w = s.query.weights;
    let t = s.query.tolerances;
    out[FIELD_WEIGHT..SIZE].copy_from_slice(&[
        w.field.0,
        w.trim.0,
        s.rows.card,
        t.field.0,
        t.trim.0,
        u32::from(s.query.meaning),
    ]);
}
