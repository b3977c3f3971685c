// The comparer is first fed one wrong list, answer and record of each kind, which it must report.
use crate::calls::{self, Call};
use crate::due::{Case, NO_SESSION, Said};
use crate::judge::{self, Fault, Seen, UNSEEN};
use crate::plain::{Asked, NO_ROW, Row, Table, Tables};
use crate::two_tables::{Both, Card, Lent, first};
use crate::{play, refused};
use rules::{
    FieldTolerance, FieldWeight, Meaning, NO_PAIR, PLACES, Pair, Query, Refusal, Session,
    Tolerances, TrimTolerance, TrimWeight, Weights,
};
use std::io;
use std::io::Print;

fn line<R: Print>(rt: &R, name: &str, reported: bool) -> io::Result<()> {
    let found = if reported { "reported" } else { "NOT REPORTED" };
    println!(rt; "{name}: {found}")
}

// Three rows of these scores, the third far from the others by its last coordinate.
fn table(card: Card, scores: [u32; 3]) -> Table {
    let row = |pattern, score| Row {
        pattern,
        score,
        ..NO_ROW
    };
    let mut t = [NO_ROW; 12];
    t[0] = row(1, scores[0]);
    t[1] = row(2, scores[1]);
    t[2] = row(3, scores[2]);
    match card {
        Card::Old => t[2].b = 40,
        Card::New => t[2].light = 40,
    }
    t
}

// The k best pairs of two such tables on a card, by blocks of two rows; surely, if there are tolerances.
fn asked(card: Card, k: u32, tolerances: Both<u32>) -> Asked {
    let query = Query {
        k,
        block: 2,
        radius: 5,
        weights: Weights {
            field: FieldWeight(1),
            trim: TrimWeight(1),
        },
        tolerances: Tolerances {
            field: FieldTolerance(tolerances.field),
            trim: TrimTolerance(tolerances.trim),
        },
        meaning: if 0 < tolerances.field {
            Meaning::Surely
        } else {
            Meaning::Possibly
        },
    };
    Asked { card, query }
}

const NO_TOLERANCES: Both<u32> = Both { field: 0, trim: 0 };

// The k best pairs on the old card.
fn best(k: u32) -> Asked {
    asked(Card::Old, k, NO_TOLERANCES)
}

fn field(card: Card) -> Table {
    table(card, [9, 8, 1])
}

fn trim(card: Card) -> Table {
    table(card, [7, 5, 2])
}

fn case(asked: Asked) -> Case {
    Case::new(&Tables {
        asked,
        field: &field(asked.card),
        trim: &trim(asked.card),
        rows: Both { field: 3, trim: 3 },
    })
}

fn pair(sum: u32, field: u32, trim: u32) -> Pair {
    Pair { sum, field, trim }
}

// What the comparer must see at its end.
fn right() -> Seen {
    let mut given = [NO_PAIR; PLACES];
    given[0] = pair(16, 1, 1);
    given[1] = pair(15, 2, 1);
    given[2] = pair(14, 1, 2);
    Seen {
        given,
        count: 3,
        said: Said::Finished,
        due: Said::Finished,
        depth: 3,
        ..UNSEEN
    }
}

// Says whether the comparer finds this fault.
fn finds<R: Print>(
    rt: &R,
    name: &str,
    asked: Asked,
    seen: Seen,
    fault: Option<Fault>,
) -> io::Result<()> {
    line(rt, name, judge::first_fault(&case(asked), &seen) == fault)
}

// The same of the three best pairs on the old card.
fn judged<R: Print>(rt: &R, name: &str, seen: Seen, fault: Option<Fault>) -> io::Result<()> {
    finds(rt, name, best(3), seen, fault)
}

// The right list with another pair at a place.
fn with_pair(i: usize, p: Pair) -> Seen {
    let mut seen = right();
    seen.given[i % PLACES] = p;
    seen.count = seen.count.max(i.wrapping_add(1));
    seen
}

fn listed<R: Print>(rt: &R, name: &str, i: usize, p: Pair, fault: Fault) -> io::Result<()> {
    judged(rt, name, with_pair(i, p), Some(fault))
}

fn wrong_pairs<R: Print>(rt: &R) -> io::Result<()> {
    listed(rt, "no such field row", 0, pair(16, 4, 1), Fault::NoRow)?;
    listed(rt, "no such trim row", 0, pair(16, 1, 0), Fault::NoRow)?;
    listed(rt, "too far apart", 1, pair(11, 1, 3), Fault::TooFar)?;
    listed(
        rt,
        "another sum than its own",
        0,
        pair(17, 1, 1),
        Fault::Sum,
    )?;
    listed(rt, "a pair twice", 1, pair(16, 1, 1), Fault::Twice)
}

fn wrong_order<R: Print>(rt: &R) -> io::Result<()> {
    listed(
        rt,
        "the best pair left out",
        0,
        pair(13, 2, 2),
        Fault::Order,
    )?;
    let mut swapped = with_pair(1, pair(14, 1, 2));
    swapped.given[2] = pair(15, 2, 1);
    judged(rt, "sums out of order", swapped, Some(Fault::Order))?;
    listed(rt, "a pair too many", 3, pair(13, 2, 2), Fault::Order)
}

// On the new card, where the third rows are far from the others by L alone.
fn wrong_light<R: Print>(rt: &R) -> io::Result<()> {
    let new = asked(Card::New, 3, NO_TOLERANCES);
    finds(
        rt,
        "a right list on the new card, no fault",
        new,
        right(),
        None,
    )?;
    let seen = with_pair(1, pair(11, 1, 3));
    finds(
        rt,
        "too far apart by L alone",
        new,
        seen,
        Some(Fault::TooFar),
    )
}

// With tolerances 1 and 2, where equal shades may lie 3 and 3 apart, and with 2 and 2: 4 and 4.
fn wrong_tolerance<R: Print>(rt: &R) -> io::Result<()> {
    let sure = asked(Card::Old, 3, Both { field: 1, trim: 2 });
    finds(
        rt,
        "a right list of sure pairs, no fault",
        sure,
        right(),
        None,
    )?;
    let none = asked(Card::Old, 3, Both { field: 2, trim: 2 });
    let fault = Some(Fault::TooFar);
    finds(rt, "too far apart by the tolerances", none, right(), fault)
}

// The first n pairs of the right list, an answer, and the one that was due.
fn answered<R: Print>(
    rt: &R,
    name: &str,
    count: usize,
    said: Said,
    due: Said,
    fault: Fault,
) -> io::Result<()> {
    let seen = Seen {
        count,
        said,
        due,
        ..right()
    };
    judged(rt, name, seen, Some(fault))
}

fn wrong_answers<R: Print>(rt: &R) -> io::Result<()> {
    use Said::{Finished, Given, NotYet, Read, Settled};
    answered(rt, "finished too early", 2, Finished, Given, Fault::Early)?;
    answered(rt, "finished too late", 3, NotYet, Finished, Fault::Late)?;
    answered(rt, "given too early", 1, Given, NotYet, Fault::Answer)?;
    answered(rt, "held back", 0, NotYet, Given, Fault::Answer)?;
    answered(rt, "settled too early", 0, Settled, Read, Fault::Answer)?;
    answered(
        rt,
        "read on though settled",
        0,
        Read,
        Settled,
        Fault::Answer,
    )
}

fn wrong_session<R: Print>(rt: &R) -> io::Result<()> {
    let deep = Seen {
        depth: 5,
        ..right()
    };
    judged(rt, "read too deep", deep, Some(Fault::Deep))?;
    let record = Some(Fault::Changed);
    let other = Seen { record, ..right() };
    judged(rt, "a record that is not as it should be", other, record)
}

// The session after n reads of these tables.
fn reads_of(lent: Lent, n: u32) -> Session {
    let mut session = calls::open(lent, best(3)).session;
    for _ in 0..n {
        session = Call::Read.on(lent, session).session;
    }
    session
}

// The numbers of both tables on the old card.
fn numbers() -> Both<[i32; 60]> {
    Both {
        field: calls::on_card(Card::Old, &field(Card::Old)),
        trim: calls::on_card(Card::Old, &trim(Card::Old)),
    }
}

fn lent_of(numbers: &Both<[i32; 60]>) -> Lent<'_> {
    Both {
        field: first(&numbers.field, 12),
        trim: first(&numbers.trim, 12),
    }
}

fn reads(n: u32) -> Session {
    reads_of(lent_of(&numbers()), n)
}

// Says whether this fault is found in what the third read is to have given back.
fn third_read<R: Print>(
    rt: &R,
    name: &str,
    after: Session,
    fault: Option<Fault>,
) -> io::Result<()> {
    let due = case(best(3)).session(&reads(2), Said::Read, &[]);
    line(rt, name, judge::differs(&due, &after) == fault)
}

fn wrong_records<R: Print>(rt: &R) -> io::Result<()> {
    let right = reads(3);
    third_read(rt, "a right record, no fault", right, None)?;
    let out = Session { out: 1, ..right };
    let changed = Some(Fault::Changed);
    third_read(rt, "a record with another count of pairs out", out, changed)?;
    third_read(
        rt,
        "a read that reads nothing",
        reads(2),
        Some(Fault::Block),
    )?;
    let joined = Session { joined: 9, ..right };
    third_read(rt, "another joined count", joined, Some(Fault::Joined))?;
    let held = Session { held: 2, ..right };
    third_read(rt, "a held pair lost", held, Some(Fault::Held))?;
    let mut other = right;
    other.pairs[2].trim = 1;
    third_read(rt, "another pair held", other, Some(Fault::Held))
}

// A query run whole, and one that asks for a pair less than it is judged by.
fn wrong_query<R: Print>(rt: &R) -> io::Result<()> {
    let numbers = numbers();
    let lent = lent_of(&numbers);
    judged(
        rt,
        "a query run whole, no fault",
        play::at_once(lent, best(3)),
        None,
    )?;
    let other = play::at_once(lent, best(2));
    let fault = Some(Fault::Early);
    judged(rt, "a query run whole that lists too few", other, fault)
}

// Says whether this fault is found in an opening that is to be refused so and to give back this session.
fn refusal<R: Print>(
    rt: &R,
    name: &str,
    k: u32,
    s: &Session,
    by: Refusal,
    fault: Option<Fault>,
) -> io::Result<()> {
    let step = calls::open(lent_of(&numbers()), best(k));
    line(rt, name, refused::kept(step, s, Said::Refused(by)) == fault)
}

fn wrong_refusals<R: Print>(rt: &R) -> io::Result<()> {
    let open = reads(0);
    let by = Refusal::ListLength;
    let refused = Some(Fault::Refusal);
    refusal(rt, "a right refusal, no fault", 0, &NO_SESSION, by, None)?;
    let other = Refusal::BlockSize;
    refusal(
        rt,
        "refused by another number",
        0,
        &NO_SESSION,
        other,
        refused,
    )?;
    refusal(rt, "not refused", 3, &open, by, refused)?;
    let changed = Some(Fault::Changed);
    refusal(rt, "refused, with another record", 0, &open, by, changed)
}

// As if the last of three reads had read nothing.
fn wrong_shown<R: Print>(rt: &R) -> io::Result<()> {
    let numbers = numbers();
    let lent = lent_of(&numbers);
    let s = reads_of(lent, 3);
    let found = play::hidden(Card::Old, lent, &s, &s, Said::Read);
    line(
        rt,
        "rows shown that were not read",
        found == Some(Fault::Shown),
    )
}

pub fn all<R: Print>(rt: &R) -> io::Result<()> {
    judged(rt, "a right list, no fault", right(), None)?;
    wrong_pairs(rt)?;
    wrong_order(rt)?;
    wrong_light(rt)?;
    wrong_tolerance(rt)?;
    wrong_answers(rt)?;
    wrong_session(rt)?;
    wrong_records(rt)?;
    wrong_query(rt)?;
    wrong_refusals(rt)?;
    wrong_shown(rt)
}
