// The answer of a whole query as numbers, written into a lent slice.
#![tactic(auto)]

ghost use Rattle.std.specs.Prelude.{◌≡◌, ◌+◌, ◌*◌, ◌≤◌, length};
ghost use Rattle.rules.specs.Tables.{table};
ghost use Rattle.rules.specs.Session.{place_count};
ghost use Rattle.printing.specs.Put.{put_at};
ghost use Rattle.outcomes.specs.Outcomes.{OutcomeOf};
ghost use Rattle.listing.specs.Shown.{Shown};
ghost use Rattle.query_numbers.specs.Answers.{query_room, answered};
ghost use Rattle.query_numbers.specs.Parts.{part_length, part_numbers, list_parts};

use outcomes::Outcome;
use rules::Pair;

// The numbers in front of the pairs, those of a pair, and those of the longest answer.
const HEAD_LENGTH: usize = 3;

const PAIR_LENGTH: usize = 6;

pub const ROOM: usize = HEAD_LENGTH + PAIR_LENGTH * rules::PLACES;

// The roots' numbers of a pair, and those of the longest answer with all roots behind it.
const ROOT_LENGTH: usize = 2;

pub const ROOTS_ROOM: usize = ROOM + ROOT_LENGTH * rules::PLACES;

// What part of a pair is written: its numbers, or the root of its squared distance and the remainder.
#[derive(Clone, Copy)]
enum Part {
    Numbers,
    Roots,
}

impl Part {
    // How many numbers it has.
    fn length(self) -> usize
        ensures { result ≡ part_length self }
    {
        match self {
            Part::Numbers => PAIR_LENGTH,
            Part::Roots => ROOT_LENGTH,
        }
    }
}

// A part of one pair, from a place on.
fn put_part(part: Part, out: &mut [u64], at: usize, n: u32, f: &[i32], t: &[i32], p: Pair)
    requires { (at + part_length part ≤ length out.old) × Shown (table n f.now) (table n t.now) p }
    ensures { out.new
        ≡ put_at at (part_numbers part (table n f.now) (table n t.now) p) out.old }
{
    let line = listing::line_of(n, f, t, 0, p);
    match part {
        Part::Numbers => {
            out[at..at + PAIR_LENGTH].copy_from_slice(&[
                u64::from(p.sum),
                u64::from(p.field),
                u64::from(p.trim),
                u64::from(line.field),
                u64::from(line.trim),
                line.distance,
            ]);
        }
        Part::Roots => {
            out[at..at + ROOT_LENGTH].copy_from_slice(&[line.root, line.rest]);
        }
    }
}

// The parts of all pairs of the list, from a place on.
#[tactic(auto, using(listing::specs::ListShown::count_few))]
fn put_parts(part: Part, out: &mut [u64], at: usize, n: u32, f: &[i32], t: &[i32], run: Outcome)
    requires room { at + part_length part * place_count ≤ length out.old }
    requires outcome_of { OutcomeOf (table n f.now) (table n t.now) run }
    ensures { out.new
        ≡ put_at at (list_parts part run.query (table n f.now) (table n t.now))
        out.old }
{
    let wide = part.length();
    for i in 0..run.count {
        put_part(part, out, at + wide * i, n, f, t, run.pairs[i]);
    }
}

// The numbers of a query that was run, from the front of `out`; the roots behind them, if there is room.
pub fn put_numbers(out: &mut [u64], n: u32, f: &[i32], t: &[i32], run: Outcome)
    requires { (query_room ≤ length out.old) × OutcomeOf (table n f.now) (table n t.now) run }
    ensures { out.new ≡ answered run.query (table n f.now) (table n t.now)
        out.old }
{
    let depth = run.session.depth;
    out[..HEAD_LENGTH].copy_from_slice(&[
        u64::from(depth.field.0),
        u64::from(depth.trim.0),
        run.session.joined,
    ]);
    put_parts(Part::Numbers, out, HEAD_LENGTH, n, f, t, run);
    if ROOTS_ROOM <= out.len() {
        put_parts(Part::Roots, out, ROOM, n, f, t, run);
    }
}
