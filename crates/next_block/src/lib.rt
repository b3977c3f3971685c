// One block of the table that is next is read: its rectangle is found, it meets the other table's blocks, and the table
// is read down to its end. Which table that is says a flag, as in the rules (`read_table field f t s`).
#![tactic(auto)]

ghost use Rattle.std.specs.Prelude.{◌≡◌, true, false, cond, ◌+◌, ◌*◌, ◌≤◌, ◌<◌, ◌^◌, length};
ghost use Rattle.rules.specs.Tables.{table, most_rows, rectangle, HasRows};
ghost use Rattle.rules.specs.Session.{held_pairs, lent_table, settled};
ghost use Rattle.rules.specs.Read.{meet_blocks, read_table, read_block};
ghost use Rattle.rules.specs.Calls.{is_card, new_block_code};
ghost use Rattle.session_laws.specs.Calls.{Accepted};
ghost use Rattle.sides.specs.Sides.{sides_in};
ghost use Rattle.keys.specs.Held.{Keyed};
ghost use Rattle.choosing.specs.Due.{Due};
ghost use Rattle.choosing.specs.Ready.{Ready};
ghost use Rattle.block_pair.specs.Spans.{FirstFit, SpanFits, span_block};
ghost use Rattle.block_pair.specs.Stands.{Stands};
ghost use Rattle.next_block.specs.Side.{Passed, down_to};
ghost use Rattle.next_block.specs.After.{with_keys};

use block_pair::Span;
use keys::Keys;
use rules::{Counts, FieldRows, Session, TrimRows};
use tables::pick;

// The rectangle of the new block, of the field table where the flag says so, is written into lent numbers.
fn put_sides(n: u32, field: bool, f: &[i32], t: &[i32], new: Span, sides: &mut [i32; 6])
    requires { (is_card n ≡ true) × SpanFits new (cond field (table n f.now) (table n t.now)) }
    ensures { sides_in n sides.new
        ≡ rectangle (span_block (cond field (table n f.now) (table n t.now)) new).rows }
{
    let own = pick(field, f, t);
    sides::put_sides(n, tables::rows(n, own, new.from, new.to), sides);
}

// The new block meets the first n blocks of the other table, down to its depth: its rectangle is found once for all.
// How many block pairs are joined then.
fn meet_new(
    field: bool,
    s: Session,
    f: &[i32],
    t: &[i32],
    new: Span,
    depth: usize,
    n: usize,
    keys: &mut Keys,
) -> u64
    requires ready { Ready s × (s.joined + n < 2 ^ 63) × Keyed (held_pairs s) keys.old }
    requires span_fits { SpanFits new (cond field (lent_table s f.now) (lent_table s t.now))
        × FirstFit (cond field (lent_table s t.now) (lent_table s f.now)) depth }
    requires depth_le_most_rows { (depth ≤ most_rows)
        × HasRows (cond field (lent_table s t.now) (lent_table s f.now)) depth
        × (n * s.query.block < depth + s.query.block) }
    ensures { Stands
        (meet_blocks field s
        (span_block (cond field (lent_table s f.now) (lent_table s t.now)) new)
        (cond field (lent_table s t.now) (lent_table s f.now)) depth n)
        result keys.new }
{
    let mut sides = [0i32; 6];
    put_sides(s.rows.card, field, f, t, new, &mut sides);
    meeting::meet_blocks(field, s, f, t, new, depth, n, &sides, keys)
}

// The depths with one table's read down to row e.
#[tactic(auto, unfolding(crate::specs::Side::down_to))]
fn down_to(field: bool, e: u32, depth: Counts) -> Counts
    ensures { result ≡ down_to field e depth }
{
    Counts {
        field: FieldRows(pick(field, e, depth.field.0)),
        trim: TrimRows(pick(field, depth.trim.0, e)),
    }
}

// What a read changes of a record's numbers, but for how many pairs are held: those stand beside it as keys.
#[derive(Clone, Copy)]
pub struct After {
    pub depth: Counts,
    // as the record has it
    pub last: u32,
    pub joined: u64,
}

// One block of a table, the field table where the flag says so, is read and meets the other table's; the table is read
// down to its end, and marked as read last.
fn read_on(field: bool, f: &[i32], t: &[i32], s: Session, keys: &mut Keys) -> After
    requires { Due field (lent_table s f.now) (lent_table s t.now) s
        × Passed field (lent_table s f.now) (lent_table s t.now) s × Keyed (held_pairs s) keys.old }
    ensures { (with_keys s result keys.new ≡ read_table field (lent_table s f.now) (lent_table s t.now) s)
        × (length keys.new ≤ 64) }
{
    let block = s.query.block;
    let rows = pick(field, s.rows.field.0, s.rows.trim.0);
    let d = pick(field, s.depth.field.0, s.depth.trim.0);
    let depth = pick(field, s.depth.trim.0, s.depth.field.0);
    let e = choosing::next_depth(block, rows, d);
    let n = depth_checks::block_count(block, depth);
    let new = Span {
        from: d as usize,
        to: e as usize,
    };
    let joined = meet_new(field, s, f, t, new, depth as usize, n as usize, keys);
    After {
        depth: down_to(field, e, s.depth),
        last: pick(field, 1, 2),
        joined,
    }
}

// One block of the table that is next is read and meets the other table's. The pairs held go in and come back as keys.
pub fn read_block(f: &[i32], t: &[i32], s: Session, keys: &mut Keys) -> After
    requires { Accepted (lent_table s f.now) (lent_table s t.now) s
        × (settled (lent_table s f.now) (lent_table s t.now) s ≡ false)
        × (new_block_code (lent_table s f.now) (lent_table s t.now) s ≡ 0) × Keyed (held_pairs s) keys.old }
    ensures { (with_keys s result keys.new ≡ read_block (lent_table s f.now) (lent_table s t.now) s)
        × (length keys.new ≤ 64) }
{
    let field = choosing::field_next(f, t, s);
    read_on(field, f, t, s, keys)
}
