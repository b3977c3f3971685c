// What is told of a pair, and a whole query's listing as bytes.
#![tactic(auto)]

ghost use Rattle.std.specs.Prelude.{◌≡◌, ◌+◌, ◌*◌, ◌-◌, ◌≤◌, ◌<◌, length};
ghost use Rattle.rules.specs.Tables.{table, row};
ghost use Rattle.rules.specs.Session.{place_count};
ghost use Rattle.rules.specs.Query.{listing};
ghost use Rattle.pair_line.specs.Line.{line_length};
ghost use Rattle.printing.specs.Put.{put_at};
ghost use Rattle.outcomes.specs.Outcomes.{OutcomeOf};
ghost use Rattle.listing.specs.Shown.{RowOf, Shown, line_of, list_lines, listing_room};

use outcomes::Outcome;
use pair_line::Line;
use rules::Pair;

// The bytes of the longest listing: the query's line, those of 64 pairs, the last.
pub const ROOM: usize = other_lines::QUERY_LENGTH
    + pair_line::LINE_LENGTH * rules::PLACES
    + other_lines::LAST_LENGTH;

// The pattern number of row i; one below 0, which no checked table has, is 0.
fn pattern(n: u32, t: &[i32], i: u32) -> u32
    requires { RowOf (table n t.now) i }
    ensures { result ≡ (row (table n t.now) (i - 1)).pattern }
{
    tables::pattern(n, t, (i - 1) as usize)
}

// The squared distance of a pair's shades.
fn distance(n: u32, f: &[i32], t: &[i32], p: Pair) -> u64
    requires { Shown (table n f.now) (table n t.now) p }
    ensures { result ≡ (line_of (table n f.now) (table n t.now) 0 p).distance }
{
    let x = tables::shade(n, f, (p.field - 1) as usize);
    let y = tables::shade(n, t, (p.trim - 1) as usize);
    distance::squared_distance(x, y)
}

// What is told of a pair.
#[tactic(auto, unfolding(crate::specs::Shown::line_of))]
pub fn line_of(n: u32, f: &[i32], t: &[i32], rank: u32, p: Pair) -> Line
    requires { Shown (table n f.now) (table n t.now) p }
    ensures { result ≡ line_of (table n f.now) (table n t.now) rank p }
{
    let square = distance(n, f, t, p);
    let steps = root::root_of(square);
    Line {
        rank,
        sum: p.sum,
        field: pattern(n, f, p.field),
        trim: pattern(n, t, p.trim),
        distance: square,
        root: steps.root,
        rest: steps.rest,
    }
}

// The list's lines, from a place on.
#[tactic(auto, using(crate::specs::ListShown::count_few))]
fn put_pairs(out: &mut [u8], at: usize, n: u32, f: &[i32], t: &[i32], run: Outcome)
    requires { (at + line_length * place_count ≤ length out.old)
        × OutcomeOf (table n f.now) (table n t.now) run }
    ensures { out.new
        ≡ put_at at (list_lines run.query (table n f.now) (table n t.now)) out.old }
{
    for i in 0..run.count {
        let line = line_of(n, f, t, (i + 1) as u32, run.pairs[i]);
        pair_line::put_line(out, at + pair_line::LINE_LENGTH * i, line);
    }
}

// The listing of a query that was run, from the front of `out`: how many bytes it takes.
#[tactic(auto, using(crate::specs::ListShown::count_few))]
pub fn put_listing(out: &mut [u8], n: u32, f: &[i32], t: &[i32], run: Outcome) -> usize
    requires { (listing_room ≤ length out.old) × OutcomeOf (table n f.now) (table n t.now) run }
    ensures upper_bound { (result ≤ listing_room)
        × (result ≡ length (listing run.query (table n f.now) (table n t.now))) }
    ensures out_after { out.new
        ≡ put_at 0 (listing run.query (table n f.now) (table n t.now)) out.old }
{
    let end = other_lines::QUERY_LENGTH + pair_line::LINE_LENGTH * run.count;
    other_lines::put_query(out, 0, run.query);
    put_pairs(out, other_lines::QUERY_LENGTH, n, f, t, run);
    other_lines::put_last(out, end, run.session);
    end + other_lines::LAST_LENGTH
}
