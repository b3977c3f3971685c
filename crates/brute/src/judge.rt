// The comparer: what came out of a session beside what the double loop says.
use crate::due::{Case, Said};
use crate::two_tables::first;
use rules::{NO_PAIR, PLACES, Pair, Session};

#[derive(Clone, Copy, PartialEq, Eq)]
pub enum Fault {
    NoRow,
    TooFar,
    Sum,
    Twice,
    Order,
    Early,
    Late,
    Answer,
    Deep,
    Changed,
    Block,
    Joined,
    Held,
    Shown,
    Refusal,
}

// A session as its caller sees it after a call.
#[derive(Clone, Copy)]
pub struct Seen {
    // The pairs brought out, in order, and how many. Fixed memory: no list.
    pub given: [Pair; PLACES],
    pub count: usize,
    // The call's answer, and the one that is due.
    pub said: Said,
    pub due: Said,
    // The deeper depth.
    pub depth: u32,
    // What is wrong with the record, and what was first found wrong with the session.
    pub record: Option<Fault>,
    pub fault: Option<Fault>,
}

// A session just opened.
pub const UNSEEN: Seen = Seen {
    given: [NO_PAIR; PLACES],
    count: 0,
    said: Said::Opened,
    due: Said::Opened,
    depth: 0,
    record: None,
    fault: None,
};

impl Seen {
    pub fn pairs(&self) -> &[Pair] {
        first(&self.given, self.count)
    }

    // Whether the last two pairs have the same sum.
    pub fn is_tie(&self) -> bool {
        matches!(self.pairs(), [.., other, last] if last.sum == other.sum)
    }
}

// What is wrong with a session that must be a certain one.
pub fn differs(due: &Session, s: &Session) -> Option<Fault> {
    if due.query != s.query || due.rows != s.rows || due.out != s.out {
        return Some(Fault::Changed);
    }
    if due.depth != s.depth || due.last != s.last {
        return Some(Fault::Block);
    }
    if due.joined != s.joined {
        return Some(Fault::Joined);
    }
    if due.held != s.held || due.pairs != s.pairs {
        return Some(Fault::Held);
    }
    None
}

// What is wrong with a pair by itself.
fn own_fault(case: &Case, p: Pair) -> Option<Fault> {
    let Pair { sum, field, trim } = p;
    if field == 0 || trim == 0 || case.rows.field < field || case.rows.trim < trim {
        return Some(Fault::NoRow);
    }
    let told = case.sums.at(field, trim);
    if !told.qualifies {
        return Some(Fault::TooFar);
    }
    (sum != told.pair.sum).then_some(Fault::Sum)
}

// What is wrong with a pair that is brought out after these. Its sum must be the one at its place among all qualifying
// sums, highest first.
fn pair_fault(case: &Case, before: &[Pair], p: Pair) -> Option<Fault> {
    let own = own_fault(case, p);
    if own.is_some() {
        return own;
    }
    if before
        .iter()
        .any(|q| p.field == q.field && p.trim == q.trim)
    {
        return Some(Fault::Twice);
    }
    let above = case.sums.reaching(case.rows, p.sum.wrapping_add(1));
    let most = case.k().min(case.sums.reaching(case.rows, p.sum));
    (before.len() < above || most <= before.len()).then_some(Fault::Order)
}

// The first fault of the pairs brought out.
fn list_fault(case: &Case, pairs: &[Pair]) -> Option<Fault> {
    for (i, p) in pairs.iter().enumerate() {
        let fault = pair_fault(case, &pairs[..i], *p);
        if fault.is_some() {
            return fault;
        }
    }
    None
}

// What is wrong with an answer, with the depth, or with the record.
fn answer_fault(case: &Case, seen: &Seen) -> Option<Fault> {
    let all = case.k().min(case.sums.reaching(case.rows, 0));
    let ends = seen.said == Said::Finished;
    if ends && seen.count < all {
        return Some(Fault::Early);
    }
    if !ends && seen.due == Said::Finished {
        return Some(Fault::Late);
    }
    if seen.said != seen.due {
        return Some(Fault::Answer);
    }
    if case.limit < seen.depth {
        return Some(Fault::Deep);
    }
    seen.record
}

// The first fault of a session.
pub fn first_fault(case: &Case, seen: &Seen) -> Option<Fault> {
    list_fault(case, seen.pairs()).or(answer_fault(case, seen))
}
