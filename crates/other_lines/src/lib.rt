// The line of a refusal, and a listing's first and last, written as bytes into a lent slice, from a place on.
#![tactic(auto)]

ghost use Rattle.std.specs.Prelude.{◌≡◌, ◌+◌, ◌≤◌, length};
ghost use Rattle.rules.specs.Query.{input_length, query_line, last_line, refusal_line};
ghost use Rattle.printing.specs.Put.{put_at};
ghost use Rattle.other_lines.specs.Lines.{last_length, refusal_length};

use printing::{put_feed, put_number};
use rules::{Query, Session};

// The bytes of each.
pub const REFUSAL_LENGTH: usize = 7;

pub const QUERY_LENGTH: usize = rules::INPUT_LENGTH;

pub const LAST_LENGTH: usize = 25;

// The line of a refusal.
#[tactic(auto, using(printing::specs::Numbers::and_then), unfolding(rules::specs::Query::refusal_line))]
pub fn put_refusal(out: &mut [u8], at: usize, code: u32)
    requires { at + refusal_length ≤ length out.old }
    ensures { out.new ≡ put_at at (refusal_line code) out.old }
{
    put_number(out, at, 6, u64::from(code));
    put_feed(out, at + 6);
}

// The first line: the query.
#[tactic(auto, using(printing::specs::Numbers::and_then), unfolding(rules::specs::Query::query_line))]
pub fn put_query(out: &mut [u8], at: usize, q: Query)
    requires { at + input_length ≤ length out.old }
    ensures { out.new ≡ put_at at (query_line q) out.old }
{
    let b = at + 6;
    let c = b + 6;
    put_number(out, at, 6, u64::from(q.k));
    put_number(out, b, 6, u64::from(q.block));
    put_number(out, c, 6, u64::from(q.radius));
    put_feed(out, c + 6);
}

// The last line: the rows read of each table, and the block pairs joined.
#[tactic(auto, using(printing::specs::Numbers::and_then), unfolding(rules::specs::Query::last_line))]
pub fn put_last(out: &mut [u8], at: usize, s: Session)
    requires { at + last_length ≤ length out.old }
    ensures { out.new ≡ put_at at (last_line s) out.old }
{
    let b = at + 6;
    let c = b + 6;
    put_number(out, at, 6, u64::from(s.depth.field.0));
    put_number(out, b, 6, u64::from(s.depth.trim.0));
    put_number(out, c, 12, s.joined);
    put_feed(out, c + 12);
}
