// The session, and the whole query at once, against a plain double loop, over tables made from seeds. Prints totals;
// the comparer is tried first.
#![tactic(auto)]

use crate::judge::Fault;
use crate::tally::count_if;
use crate::two_tables::{Both, Card};
use std::io;
use std::io::Print;

mod calls;
mod dice;
mod due;
mod judge;
mod made;
mod plain;
mod play;
mod refused;
mod tally;
mod two_tables;
mod wrong;

// A case: its tables are made and its session is played. The first 4,000 are on the old card, the others on the new.
fn run_case(seed: u64, tally: &mut tally::Tally) {
    let dice = dice::Dice(seed);
    let card = if seed < 4000 { Card::Old } else { Card::New };
    let field = made::table(dice, card);
    let trim = made::table(dice::Dice(seed.wrapping_add(1000000)), card);
    let rows = Both {
        field: dice.below(10, 13),
        trim: dice.below(11, 13),
    };
    let case = due::Case::new(&plain::Tables {
        asked: made::asked(dice, card),
        field: &field,
        trim: &trim,
        rows,
    });
    counted(&case, tally);
    let x = calls::on_card(card, &field);
    let y = calls::on_card(card, &trim);
    let lent = Both {
        field: two_tables::first(&x, card.numbers(rows.field)),
        trim: two_tables::first(&y, card.numbers(rows.trim)),
    };
    let game = play::Game {
        case: &case,
        lent,
        dice,
    };
    played(&game, tally);
}

// A session is played, its query run whole, and both are counted.
fn played(game: &play::Game, tally: &mut tally::Tally) {
    let end = game.whole(tally);
    let at_once = play::at_once(game.lent, game.case.asked);
    let fault = end.seen.fault.or(judge::first_fault(game.case, &at_once));
    counted_end(game.case, fault, end.seen.depth, tally);
    let read = due::read(&end.session);
    let far = 0 < game.case.sums.count(read, |told| told.far);
    count_if(&mut tally.far, far);
    count_if(&mut tally.far_and_joined, far && 0 < end.session.joined);
}

// By what its tables have, and whether anything can meet its query.
fn counted(case: &due::Case, tally: &mut tally::Tally) {
    let by_light = case.sums.count(case.rows, |told| told.by_light);
    let by_tolerance = case.sums.count(case.rows, |told| told.by_tolerance);
    let withdrawn = case.live.field < case.rows.field || case.live.trim < case.rows.trim;
    count_if(&mut tally.cases, true);
    count_if(&mut tally.empty, case.has_empty());
    count_if(&mut tally.withdrawn, withdrawn);
    count_if(&mut tally.unsatisfiable, case.none);
    count_if(&mut tally.by_light, 0 < by_light);
    count_if(&mut tally.by_tolerance, 0 < by_tolerance);
}

// By how it ended, and whether the row limit was met exactly.
fn counted_end(case: &due::Case, fault: Option<Fault>, depth: u32, tally: &mut tally::Tally) {
    let exact = !case.has_empty() && depth == case.limit;
    count_if(&mut tally.mismatches, fault.is_some());
    count_if(&mut tally.exact, exact);
    count_if(&mut tally.exact_blocks, exact && 1 < case.asked.query.block);
}

fn line<R: Print>(rt: &R, name: &str, number: u64) -> io::Result<()> {
    println!(rt; "{name}{number}")
}

// The cases, by kind.
fn cases<R: Print>(rt: &R, tally: &tally::Tally) -> io::Result<()> {
    line(rt, "cases: ", tally.cases)?;
    line(rt, "with pairs that L alone keeps apart: ", tally.by_light)?;
    line(
        rt,
        "with pairs that tolerances decide: ",
        tally.by_tolerance,
    )?;
    line(
        rt,
        "with a query that nothing can meet: ",
        tally.unsatisfiable,
    )?;
    line(rt, "with block pairs too far apart: ", tally.far)?;
    line(
        rt,
        "and with others that are joined: ",
        tally.far_and_joined,
    )?;
    line(rt, "with an empty table: ", tally.empty)?;
    line(rt, "with a withdrawn row: ", tally.withdrawn)
}

// The calls, by answer.
fn answers<R: Print>(rt: &R, tally: &tally::Tally) -> io::Result<()> {
    line(rt, "blocks read: ", tally.read)?;
    line(rt, "settled: ", tally.settled)?;
    line(rt, "pairs: ", tally.given)?;
    line(rt, "ties: ", tally.ties)?;
    line(rt, "not yet: ", tally.not_yet)?;
    line(rt, "finished: ", tally.finished)
}

// The refused calls, by number.
fn refusals<R: Print>(rt: &R, tally: &tally::Tally) -> io::Result<()> {
    for (number, calls) in tally.refused.iter().enumerate() {
        if *calls != 0 {
            println!(rt; "refused by {number}: {calls}")?;
        }
    }
    Ok(())
}

// How often the row limit was met, and what went wrong.
fn ends<R: Print>(rt: &R, tally: &tally::Tally) -> io::Result<()> {
    line(rt, "limits reached exactly: ", tally.exact)?;
    line(
        rt,
        "limits reached exactly by blocks of 2 rows or more: ",
        tally.exact_blocks,
    )?;
    line(rt, "mismatches: ", tally.mismatches)
}

fn main(rt: HostRuntime) -> io::Result<()> {
    wrong::all(&rt)?;
    let mut tally = tally::Tally::default();
    for seed in 0u64..8000 {
        run_case(seed, &mut tally);
    }
    cases(&rt, &tally)?;
    answers(&rt, &tally)?;
    refusals(&rt, &tally)?;
    ends(&rt, &tally)
}
