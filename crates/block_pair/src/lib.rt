// One block pair, rows of the field table and rows of the trim table, is met: skipped, or joined and counted.
#![tactic(auto)]

ghost use Rattle.std.specs.Prelude.{◌≡◌, true, cond, ◌≤◌, ◌<◌, ◌^◌, length};
ghost use Rattle.rules.specs.Tables.{table, rectangle, terms};
ghost use Rattle.rules.specs.Calls.{is_card};
ghost use Rattle.session_laws.specs.Record.{QueryFits};
ghost use Rattle.block.specs.Block.{Joined};
ghost use Rattle.sides.specs.Sides.{sides_in};
ghost use Rattle.skipping.specs.Effect.{Effect};
ghost use Rattle.block_pair.specs.Spans.{SpanFits, span_block};
ghost use Rattle.block_pair.specs.Stands.{Meets};

use keys::Keys;
use rules::Query;
use skipping::Joining;

// Some rows of a table: those after row `from`, down to row `to`.
#[derive(Clone, Copy)]
pub struct Span {
    pub from: usize,
    pub to: usize,
}

// Rows of the field table and rows of the trim table, each as a part of its table, are joined: of the pairs held and
// the qualifying ones the best, at most room.
fn join_parts(
    n: u32,
    q: Query,
    room: usize,
    f: &[i32],
    x: Span,
    t: &[i32],
    y: Span,
    keys: &mut Keys,
)
    requires held_le_room { (length keys.old ≤ room) × (room ≤ 64) }
    requires query_fits { QueryFits q × (is_card n ≡ true) × SpanFits x (table n f.now) × SpanFits y (table n t.now) }
    ensures { Joined (terms q) room (span_block (table n f.now) x) (span_block (table n t.now) y) keys.old keys.new }
{
    let fields = tables::rows(n, f, x.from, x.to);
    let trims = tables::rows(n, t, y.from, y.to);
    block::join(n, q, room, fields, x.from, trims, y.from, keys);
}

// The effect of rows of the field table and rows of the trim table. The rectangle of the new ones, of the field table
// where the flag says so, stands in `sides`.
fn effect_parts(
    n: u32,
    full: bool,
    low: u32,
    q: Query,
    field: bool,
    sides: &[i32; 6],
    f: &[i32],
    x: Span,
    t: &[i32],
    y: Span,
) -> Joining
    requires query_fits { QueryFits q × (is_card n ≡ true) × SpanFits x (table n f.now) × SpanFits y (table n t.now) }
    requires sides_value { sides_in n sides.now
        ≡ rectangle (cond field (span_block (table n f.now) x).rows (span_block (table n t.now) y).rows) }
    ensures { Effect full low q (span_block (table n f.now) x).rows
        (span_block (table n t.now) y).rows result }
{
    let fields = tables::rows(n, f, x.from, x.to);
    let trims = tables::rows(n, t, y.from, y.to);
    skipping::effect(n, full, low, q, field, sides, fields, trims)
}

// One block pair is met: skipped, or joined and counted; `joined` counts those joined before. `sides` as above.
pub fn meet_parts(
    n: u32,
    q: Query,
    room: usize,
    field: bool,
    sides: &[i32; 6],
    f: &[i32],
    x: Span,
    t: &[i32],
    y: Span,
    keys: &mut Keys,
    joined: u64,
) -> u64
    requires held_le_room { (length keys.old ≤ room) × (room ≤ 64) × (joined < 2 ^ 63) }
    requires query_fits { QueryFits q × (is_card n ≡ true) × SpanFits x (table n f.now) × SpanFits y (table n t.now) }
    requires sides_value { sides_in n sides.now
        ≡ rectangle (cond field (span_block (table n f.now) x).rows (span_block (table n t.now) y).rows) }
    ensures { Meets q room (span_block (table n f.now) x) (span_block (table n t.now) y) joined
        keys.old result keys.new }
{
    let full = keys.held() == room;
    let low = keys.last().sum;
    match effect_parts(n, full, low, q, field, sides, f, x, t, y) {
        Joining::Skipped => return joined,
        Joining::Quiet => {}
        Joining::PairByPair => join_parts(n, q, room, f, x, t, y, keys),
    }
    joined + 1
}
