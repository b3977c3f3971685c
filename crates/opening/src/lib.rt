// Opening: a query and two lent tables in, a record with nothing read out, or what refuses them.
#![tactic(auto)]

ghost use Rattle.std.specs.Prelude.{◌≡◌};
ghost use Rattle.rules.specs.Session.{opened, zeros};
ghost use Rattle.rules.specs.Tables.{field_table, trim_table};
ghost use Rattle.rules.specs.Calls.{open_call};

use rules::{
    Answer, Counts, FieldRows, FieldTolerance, FieldWeight, Kinds, Meaning, Query, Session, Step,
    Tolerances, TrimRows, TrimTolerance, TrimWeight, TwoTables, Weights,
};

// A record with nothing read.
#[tactic(auto, unfolding(rules::specs::Session::opened, rules::specs::Session::places))]
fn fresh(q: Query, rows: TwoTables) -> Session
    ensures { result ≡ opened q rows }
{
    let depth = Counts {
        field: FieldRows(0),
        trim: TrimRows(0),
    };
    Session {
        query: q,
        rows,
        depth,
        last: 0,
        out: 0,
        held: 0,
        pairs: [rules::NO_PAIR; 64],
        joined: 0,
    }
}

// The record of a refused opening.
#[tactic(auto, unfolding(rules::specs::Session::zeros))]
fn all_zeros() -> Session
    ensures { result ≡ zeros }
{
    let weights = Weights {
        field: FieldWeight(0),
        trim: TrimWeight(0),
    };
    let tolerances = Tolerances {
        field: FieldTolerance(0),
        trim: TrimTolerance(0),
    };
    let q = Query {
        k: 0,
        block: 0,
        radius: 0,
        weights,
        tolerances,
        meaning: Meaning::Possibly,
    };
    let rows = TwoTables {
        field: FieldRows(0),
        trim: TrimRows(0),
        card: 0,
    };
    fresh(q, rows)
}

// Opening: a record with nothing read, or what it is refused by and a record of zeros.
pub fn start(q: Query, kinds: Kinds, f: &[i32], t: &[i32]) -> Step
    ensures { result ≡ open_call q (field_table kinds f.now) (trim_table kinds t.now) }
{
    let m = cards::field_coordinates(kinds);
    let n = cards::trim_coordinates(kinds);
    if let Err(refusal) = opening_checks::check_opening(q, m, f, n, t) {
        return Step {
            answer: Answer::Refused(refusal),
            session: all_zeros(),
        };
    }
    let rows = TwoTables {
        field: FieldRows(tables::rows_lent(m, f) as u32),
        trim: TrimRows(tables::rows_lent(n, t) as u32),
        card: m,
    };
    Step {
        answer: Answer::Opened,
        session: fresh(q, rows),
    }
}
