// Calls that must be refused, each by a refusal known from how it was made, some for two reasons, of which the first
// counts. A refused call changes nothing.
use crate::calls::Call;
use crate::dice::Dice;
use crate::due::{Case, NO_SESSION, Said};
use crate::judge::Fault;
use crate::plain::Asked;
use crate::play::Game;
use crate::tally::{Tally, count_if};
use crate::two_tables::{Both, Card, Lent, Which, first};
use crate::{calls, due, judge, plain};
use rules::{
    FieldKind, FieldRows, FieldTolerance, FieldWeight, Kinds, Meaning, Query, Refusal, Session,
    Step, Tolerances, TrimKind, TrimRows, TrimTolerance, TrimWeight,
};

// A table's numbers, and room for a row more.
type Numbers = [i32; 65];

const ZEROS: Numbers = [0; 65];

// A query with a number that none has. Here and below, which harm it is is a number of the dice, looked at once: an
// enum of thirty would be no plainer.
fn harmed_query(q: Query, which: u32) -> Query {
    let mut h = q;
    match which {
        0 => h.k = 0,
        1 => h.k = 65,
        2 => h.block = 0,
        3 => h.block = 1025,
        4 => h.radius = 40001,
        5 => h.weights.field = FieldWeight(0),
        6 => h.weights.field = FieldWeight(10),
        7 => h.weights.trim = TrimWeight(0),
        8 => h.weights.trim = TrimWeight(10),
        9 => h.tolerances.field = FieldTolerance(501),
        10 => h.tolerances.trim = TrimTolerance(501),
        _ => {}
    }
    h
}

// By what an opening with it is refused.
fn query_refusal(which: u32) -> Option<Refusal> {
    match which {
        0 | 1 => Some(Refusal::ListLength),
        2 | 3 => Some(Refusal::BlockSize),
        4 => Some(Refusal::RadiusRange),
        5..=8 => Some(Refusal::WeightRange),
        9 | 10 => Some(Refusal::ToleranceRange),
        _ => None,
    }
}

// A session that is refused as a bad record, of one that is not: with a number that no record has there, from the
// twelfth harm on none of the query's; with a mark of the table last read where none was, or none where one was; a
// depth within a block; pairs out of order; rows read though nothing can meet the query.
fn harmed(s: &Session, which: u32) -> Session {
    let mut h = *s;
    match which {
        0..=10 => h.query = harmed_query(s.query, which),
        11 => h.rows.card = 0,
        12 => h.rows.card = 1,
        13 => h.rows.card = 4,
        14 => h.rows.field = FieldRows(65536),
        15 => h.rows.trim = TrimRows(65536),
        16 => h.out = 65,
        17 => h.depth.field = FieldRows(13),
        18 => h.depth.trim = TrimRows(13),
        19 => h.last = 3,
        20 => h.joined = 4294967295,
        21 => h.held = 65,
        22 => h.pairs[0].sum = 179983,
        23 => h.pairs[0].field = 13,
        24 => h.pairs[0].trim = 13,
        25 => h.pairs[63].sum = 20000,
        26 => h.last = u32::from(s.last == 0),
        27 if 1 < s.query.block && 1 < s.rows.field.0 => h.depth.field = FieldRows(1),
        27 => h.depth.field = FieldRows(13),
        28 => h.pairs[1].sum = s.pairs[0].sum.wrapping_add(1),
        _ => h.query = unmet(s.query, s.last == 0),
    }
    h
}

// A query that nothing can meet; out of range where nothing is read.
fn unmet(q: Query, unread: bool) -> Query {
    Query {
        radius: 0,
        tolerances: Tolerances {
            field: FieldTolerance(if unread { 501 } else { 500 }),
            trim: q.tolerances.trim,
        },
        meaning: Meaning::Surely,
        ..q
    }
}

// What is wrong with a call that must be answered so and give back this session.
pub fn kept(step: Step, s: &Session, due: Said) -> Option<Fault> {
    if Said::from(step.answer) != due {
        return Some(Fault::Refusal);
    }
    judge::differs(s, &step.session)
}

// Counts a call that must be answered so, if it must be refused, and whether it had a fault.
fn counted(due: Said, fault: Option<Fault>, tally: &mut Tally) {
    if let Said::Refused(by) = due {
        tally.refusal(by);
    }
    count_if(&mut tally.mismatches, fault.is_some());
}

// A read and a take that must be refused so. Where a table's size or the record refuses, nothing is shown.
fn called(lent: Lent, s: &Session, by: Refusal, tally: &mut Tally) {
    let due = Said::Refused(by);
    let read = kept(Call::Read.on(lent, *s), s, due);
    let take = kept(Call::Take.on(lent, *s), s, due);
    let hides = matches!(by, Refusal::TableSize | Refusal::BadRecord);
    let shown = (hides && calls::shown(lent, *s) != 0).then_some(Fault::Shown);
    counted(due, read.or(shown).or(take), tally);
}

// The numbers of a table, with another at a place that it has.
fn with_number(t: &[i32], at: usize, x: i32) -> Numbers {
    let mut r = ZEROS;
    for (number, own) in r.iter_mut().zip(t) {
        *number = *own;
    }
    if at < r.len() {
        r[at] = x;
    }
    r
}

// Numbers that no row has, two for each column.
const BAD: [[i32; 2]; 5] = [
    [0, 1000000],
    [-1, 10000],
    [-12801, 12701],
    [-12801, 12701],
    [-1, 10001],
];

// A table with such a number in the row after so many.
fn bad_after(card: Card, t: &[i32], rows: u32, dice: Dice) -> Numbers {
    let column = dice.below(24, card.columns()) as usize;
    let bad = BAD[column][dice.below(25, 2) as usize];
    with_number(t, card.numbers(rows).wrapping_add(column), bad)
}

// A table whose row after so many has the highest score.
fn best_after(card: Card, t: &[i32], rows: u32) -> Numbers {
    with_number(t, card.numbers(rows).wrapping_add(1), 9999)
}

// Whether no row has the highest score.
fn is_low(t: &[i32]) -> bool {
    !matches!(t, [_, 9999, ..])
}

// Another size than n: one or a row more or fewer, or that of the same rows on the other card.
fn other_size(card: Card, n: usize, way: u32) -> usize {
    let row = card.columns() as usize;
    if n < row {
        return row;
    }
    match way {
        0 => n.wrapping_sub(1),
        1 => n.wrapping_add(1),
        2 => n.wrapping_sub(row),
        3 => n.wrapping_add(row),
        _ => (n / row).wrapping_mul(card.other().columns() as usize),
    }
}

// A read that must be answered so and change nothing.
fn read(lent: Lent, s: &Session, due: Said, tally: &mut Tally) {
    counted(due, kept(Call::Read.on(lent, *s), s, due), tally);
}

// An opening that must be refused so and give the record of zeros, with which nothing is read or taken.
fn opened(lent: Lent, query: Query, kinds: Kinds, by: Refusal, tally: &mut Tally) {
    let step = calls::open_as(lent, query, kinds);
    let due = Said::Refused(by);
    counted(due, kept(step, &NO_SESSION, due), tally);
    called(lent, &NO_SESSION, Refusal::BadRecord, tally);
}

// A session that is asked what must be refused: its case, its tables as they are lent, and dice.
#[derive(Clone, Copy)]
struct Trial<'a> {
    case: &'a Case,
    lent: Lent<'a>,
    session: &'a Session,
    dice: Dice,
}

impl Trial<'_> {
    fn card(&self) -> Card {
        self.case.asked.card
    }

    // A read and a take with x in place of one table.
    fn with_table(&self, of: Which, x: &[i32], by: Refusal, tally: &mut Tally) {
        called(self.lent.with(of, x), self.session, by, tally);
    }

    // Reads and takes over a table that a number out of range was put into: with a harmed record; with another size;
    // with neither, if a row was read.
    fn of_range(&self, of: Which, row: u32, tally: &mut Tally) {
        let own = self.lent.of(of);
        let other = other_size(self.card(), own.len(), self.dice.below(27, 5));
        let bad = bad_after(self.card(), own, row, self.dice);
        let whole = first(&bad, own.len());
        let h = harmed(self.session, self.dice.below(26, 30));
        called(self.lent.with(of, whole), &h, Refusal::BadRecord, tally);
        self.with_table(of, first(&bad, other), Refusal::TableSize, tally);
        if row < due::read(self.session).of(of) {
            self.with_table(of, whole, Refusal::RowLimit, tally);
        }
    }

    // Reads and takes over a table with a row out of order, where there can be one.
    fn of_order(&self, of: Which, row: u32, tally: &mut Tally) {
        let own = self.lent.of(of);
        let best = best_after(self.card(), own, row);
        if 0 < row && is_low(own) {
            self.with_table(of, first(&best, own.len()), Refusal::RowOrder, tally);
        }
    }

    // Reads and takes with the record on the other card: the slices do not fit it, unless both are empty; nor does a
    // record with rows read, where nothing can meet its query there.
    fn of_card(&self, tally: &mut Tally) {
        if self.lent.field.is_empty() && self.lent.trim.is_empty() {
            return;
        }
        let card = self.card().other();
        let query = self.session.query;
        let mut h = *self.session;
        h.rows.card = card.coordinates();
        let by = if h.last != 0 && plain::none_qualify(&Asked { card, query }) {
            Refusal::BadRecord
        } else {
            Refusal::TableSize
        };
        called(self.lent, &h, by, tally);
    }

    // Reads over tables whose next rows are out of range, or out of order: refused, but settled where nothing unread
    // can matter.
    fn of_next(&self, tally: &mut Tally) {
        let Both { field, trim } = self.lent;
        let rows = due::read(self.session);
        let sure = self.case.sure(rows);
        let bad_field = bad_after(self.card(), field, rows.field, self.dice);
        let bad_trim = bad_after(self.card(), trim, rows.trim, self.dice);
        let bad = Both {
            field: first(&bad_field, field.len()),
            trim: first(&bad_trim, trim.len()),
        };
        let due = if sure {
            Said::Settled
        } else {
            Said::Refused(Refusal::RowLimit)
        };
        read(bad, self.session, due, tally);
        if sure || rows.field == 0 || rows.trim == 0 || !is_low(field) || !is_low(trim) {
            return;
        }
        let best_field = best_after(self.card(), field, rows.field);
        let best_trim = best_after(self.card(), trim, rows.trim);
        let best = Both {
            field: first(&best_field, field.len()),
            trim: first(&best_trim, trim.len()),
        };
        read(best, self.session, Said::Refused(Refusal::RowOrder), tally);
    }
}

// How an opening goes wrong with a table's kind, if it does: of no such kind, or on the other card.
#[derive(Clone, Copy, PartialEq, Eq)]
enum Kind {
    No,
    OtherCard,
    Right,
}

// How it goes wrong with a table's size: a part of a row, or whole rows on the other card only.
#[derive(Clone, Copy, PartialEq, Eq)]
enum Size {
    PartOfRow,
    OtherCard,
    Right,
}

// How it goes wrong with a table.
#[derive(Clone, Copy)]
struct Way {
    kind: Kind,
    size: Size,
}

impl Way {
    fn of(kind: u32, size: u32) -> Way {
        Way {
            kind: match kind {
                0 => Kind::No,
                1 => Kind::OtherCard,
                _ => Kind::Right,
            },
            size: match size {
                0 => Size::PartOfRow,
                1 => Size::OtherCard,
                _ => Size::Right,
            },
        }
    }

    fn card(self, card: Card) -> Card {
        match self.kind {
            Kind::OtherCard => card.other(),
            _ => card,
        }
    }

    // The kind of a table on a card; the other number where there is no such kind.
    fn kind(self, card: Card, of: Which, other: u32) -> u32 {
        match self.kind {
            Kind::No => other,
            _ => self.card(card).kind(of),
        }
    }

    // How many numbers are lent of so many rows on a card.
    fn size(self, card: Card, rows: u32) -> usize {
        let own = self.card(card);
        match self.size {
            Size::PartOfRow => own.numbers(rows).wrapping_add(1),
            Size::OtherCard => match own {
                Card::Old => 50,
                Card::New => 48,
            },
            Size::Right => own.numbers(rows),
        }
    }
}

// By what an opening with a harm to its query is refused: of several faults by the first.
fn opening_refusal(harm: u32, ways: Both<Way>) -> Option<Refusal> {
    let Both { field, trim } = ways;
    let by_query = query_refusal(harm);
    if by_query.is_some() {
        return by_query;
    }
    if field.kind == Kind::No || trim.kind == Kind::No {
        return Some(Refusal::WrongKind);
    }
    if field.size != Size::Right || trim.size != Size::Right {
        return Some(Refusal::TableSize);
    }
    (field.kind != trim.kind).then_some(Refusal::OtherCard)
}

impl Trial<'_> {
    // An opening of the session's query and of as many rows, with any of these faults. A harm from the twelfth on is
    // none of the query's.
    fn of_opening(&self, tally: &mut Tally) {
        let Trial {
            case,
            session,
            dice,
            ..
        } = *self;
        let card = self.card();
        let harm = dice.below(30, 22);
        let field = Way::of(dice.below(31, 5), dice.below(33, 5));
        let trim = Way::of(dice.below(32, 5), dice.below(34, 5));
        let lent = Both {
            field: first(&ZEROS, field.size(card, case.rows.field)),
            trim: first(&ZEROS, trim.size(card, case.rows.trim)),
        };
        let of_field = dice.pick(35, [0, 0, 2, 2, 4, 4, 5, 5]);
        let of_trim = dice.pick(36, [0, 0, 1, 1, 3, 3, 5, 5]);
        let kinds = Kinds {
            field: FieldKind(field.kind(card, Which::Field, of_field)),
            trim: TrimKind(trim.kind(card, Which::Trim, of_trim)),
        };
        if let Some(by) = opening_refusal(harm, Both { field, trim }) {
            opened(lent, harmed_query(session.query, harm), kinds, by, tally);
        }
    }
}

// Calls of a session that must be refused, and an opening of its query.
pub fn calls(game: &Game, session: &Session, dice: Dice, tally: &mut Tally) {
    let trial = Trial {
        case: game.case,
        lent: game.lent,
        session,
        dice,
    };
    let of = if dice.one_in(22, 2) {
        Which::Field
    } else {
        Which::Trim
    };
    let row = dice.below(23, due::read(session).of(of));
    trial.of_range(of, row, tally);
    trial.of_order(of, row, tally);
    trial.of_card(tally);
    trial.of_opening(tally);
    trial.of_next(tally);
}
