// Calls of the session, and of the whole query at once.
use crate::plain::{Asked, Table};
use crate::two_tables::{Card, Lent, Which};
use outcomes::Outcome;
use rules::{FieldKind, Kinds, Query, Session, Step, TrimKind};

// A call of a session that is open.
#[derive(Clone, Copy, PartialEq, Eq)]
pub enum Call {
    Read,
    Take,
}

// The numbers of a table as it is lent on a card: on the old one without L.
pub fn on_card(card: Card, t: &Table) -> [i32; 60] {
    let mut r = [0i32; 60];
    for (i, row) in t.iter().enumerate() {
        let numbers = [
            row.pattern,
            row.score.cast_signed(),
            row.a,
            row.b,
            row.light,
        ];
        match card {
            Card::Old => r[4 * i..4 * i + 4].copy_from_slice(&numbers[..4]),
            Card::New => r[5 * i..5 * i + 5].copy_from_slice(&numbers),
        }
    }
    r
}

// The kinds of a card's tables.
fn kinds(card: Card) -> Kinds {
    Kinds {
        field: FieldKind(card.kind(Which::Field)),
        trim: TrimKind(card.kind(Which::Trim)),
    }
}

// An opening of tables of these kinds.
pub fn open_as(lent: Lent, query: Query, kinds: Kinds) -> Step {
    opening::start(query, kinds, lent.field, lent.trim)
}

pub fn open(lent: Lent, asked: Asked) -> Step {
    open_as(lent, asked.query, kinds(asked.card))
}

impl Call {
    pub fn on(self, lent: Lent, s: Session) -> Step {
        match self {
            Call::Read => reading::read(lent.field, lent.trim, s),
            Call::Take => taking::take(lent.field, lent.trim, s),
        }
    }
}

// How many numbers are shown.
pub fn shown(lent: Lent, s: Session) -> usize {
    showing::show(lent.field, lent.trim, s).len()
}

// A whole query at once.
pub fn run(lent: Lent, asked: Asked) -> Outcome {
    run_query::run(asked.query, kinds(asked.card), lent.field, lent.trim)
}
