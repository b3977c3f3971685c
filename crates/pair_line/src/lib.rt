// A pair's line of a listing, written as bytes into a lent slice, from a place on.
#![tactic(auto)]

ghost use Rattle.std.specs.Prelude.{◌≡◌, ◌+◌, ◌≤◌, ◌++◌, length};
ghost use Rattle.rules.specs.Query.{decimal};
ghost use Rattle.printing.specs.Put.{put_at};
ghost use Rattle.pair_line.specs.Line.{line_bytes, line_length};

use printing::{put_feed, put_number};

// Its bytes.
pub const LINE_LENGTH: usize = 41;

// What is told of a pair.
#[derive(Clone, Copy)]
pub struct Line {
    pub rank: u32,
    pub sum: u32,
    // The field pattern's number, and the trim pattern's.
    pub field: u32,
    pub trim: u32,
    // The squared distance; the greatest whole number whose square is not above it, and what is left.
    pub distance: u64,
    pub root: u64,
    pub rest: u64,
}

// Two numbers of one width, one behind the other.
#[tactic(auto, using(printing::specs::Numbers::and_then))]
fn put_two(out: &mut [u8], at: usize, width: usize, x: u64, y: u64)
    requires { at + (width + width) ≤ length out.old }
    ensures { out.new ≡ put_at at (decimal width x ++ decimal width y) out.old }
{
    put_number(out, at, width, x);
    put_number(out, at + width, width, y);
}

// A pair's line: the distance by its root and rest.
#[tactic(auto, using(crate::specs::Line::and_two), unfolding(crate::specs::Line::line_bytes))]
pub fn put_line(out: &mut [u8], at: usize, line: Line)
    requires { at + line_length ≤ length out.old }
    ensures { out.new ≡ put_at at (line_bytes line) out.old }
{
    let b = at + 12;
    let c = b + 12;
    put_two(out, at, 6, u64::from(line.rank), u64::from(line.sum));
    put_two(out, b, 6, u64::from(line.field), u64::from(line.trim));
    put_two(out, c, 8, line.root, line.rest);
    put_feed(out, c + 16);
}
