// A new block of one table meets the blocks already read of the other, in their order. Which table it is of says a
// flag, as in the rules (`meet_blocks field s new t depth n`).
#![tactic(auto)]

ghost use Rattle.std.specs.Prelude.{◌≡◌, cond, ◌+◌, ◌*◌, ◌≤◌, ◌<◌, ◌^◌};
ghost use Rattle.rules.specs.Tables.{most_rows, rectangle, HasRows};
ghost use Rattle.rules.specs.Session.{held_pairs, lent_table};
ghost use Rattle.rules.specs.Read.{meet_blocks};
ghost use Rattle.sides.specs.Sides.{sides_in};
ghost use Rattle.choosing.specs.Ready.{Ready};
ghost use Rattle.block_pair.specs.Spans.{FirstFit, SpanFits, span_block};
ghost use Rattle.block_pair.specs.Stands.{Stands};
ghost use Rattle.keys.specs.Held.{Keyed};

use block_pair::{Span, meet_parts};
use keys::Keys;
use rules::Session;
use tables::pick;

// The new block, of the field table where the flag says so, meets the first n blocks of the other table, down to its
// depth: how many block pairs are joined then. Its rectangle stands in `sides`.
pub fn meet_blocks(
    field: bool,
    s: Session,
    f: &[i32],
    t: &[i32],
    new: Span,
    depth: usize,
    n: usize,
    sides: &[i32; 6],
    keys: &mut Keys,
) -> u64
    requires ready { Ready s × (s.joined + n < 2 ^ 63) × Keyed (held_pairs s) keys.old }
    requires span_fits { SpanFits new (cond field (lent_table s f.now) (lent_table s t.now))
        × FirstFit (cond field (lent_table s t.now) (lent_table s f.now)) depth }
    requires depth_le_most_rows { (depth ≤ most_rows)
        × HasRows (cond field (lent_table s t.now) (lent_table s f.now)) depth
        × (n * s.query.block < depth + s.query.block) }
    requires sides_value { sides_in s.rows.card sides.now
        ≡ rectangle (span_block (cond field (lent_table s f.now) (lent_table s t.now)) new).rows }
    ensures { Stands
        (meet_blocks field s
        (span_block (cond field (lent_table s f.now) (lent_table s t.now)) new)
        (cond field (lent_table s t.now) (lent_table s f.now)) depth n)
        result keys.new }
{
    let block = s.query.block as usize;
    let room = (s.query.k - s.out) as usize;
    let mut joined = s.joined;
    for i in 0..n {
        let c = i * block;
        let old = Span {
            from: c,
            to: (c + block).min(depth),
        };
        let x = pick(field, new, old);
        let y = pick(field, old, new);
        joined = meet_parts(
            s.rows.card,
            s.query,
            room,
            field,
            sides,
            f,
            x,
            t,
            y,
            keys,
            joined,
        );
    }
    joined
}
