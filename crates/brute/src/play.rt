// A whole session, read and taken from in one of several orders; each answer and record is compared.
use crate::calls::Call;
use crate::dice::Dice;
use crate::due::{Case, Said};
use crate::judge::{Fault, Seen, UNSEEN};
use crate::plain::Asked;
use crate::tally::{Tally, count_if};
use crate::two_tables::{Card, Lent};
use crate::{calls, due, judge, refused};
use rules::{Answer, PLACES, Session};

// A session, and what its caller has seen of it.
#[derive(Clone, Copy)]
pub struct Played {
    pub session: Session,
    pub seen: Seen,
}

// The order of reads and takes: a take after each read; reads, then takes; takes while possible; or as a coin falls.
#[derive(Clone, Copy)]
enum Order {
    TakeAfterRead,
    ReadsThenTakes,
    TakesWhilePossible,
    Coin,
}

impl Order {
    fn of(dice: Dice) -> Order {
        match dice.below(9, 4) {
            0 => Order::TakeAfterRead,
            1 => Order::ReadsThenTakes,
            2 => Order::TakesWhilePossible,
            _ => Order::Coin,
        }
    }

    // The next call, going by the last answer.
    fn next(self, said: Said, coin: bool) -> Call {
        let reads = match self {
            Order::TakeAfterRead => !matches!(said, Said::Read | Said::Settled),
            Order::ReadsThenTakes => !matches!(said, Said::Settled | Said::Given),
            Order::TakesWhilePossible => matches!(said, Said::NotYet),
            Order::Coin => coin,
        };
        if reads { Call::Read } else { Call::Take }
    }
}

// What is seen with one answer more.
fn told(seen: Seen, answer: Answer) -> Seen {
    let mut next = seen;
    next.said = Said::from(answer);
    if let Answer::Given(p) = answer {
        next.given[seen.count % PLACES] = p;
        next.count = seen.count.wrapping_add(1);
    }
    next
}

// After a read as many rows must be shown as were read.
pub fn hidden(
    card: Card,
    lent: Lent,
    before: &Session,
    after: &Session,
    said: Said,
) -> Option<Fault> {
    let old = due::read(before);
    let new = due::read(after);
    let fields = new.field.wrapping_sub(old.field);
    let trims = new.trim.wrapping_sub(old.trim);
    let read = card.numbers(fields.wrapping_add(trims));
    let shows = calls::shown(lent, *after) == read;
    (said == Said::Read && !shows).then_some(Fault::Shown)
}

// A case that is played: what is due, its tables as they are lent, and its dice.
#[derive(Clone, Copy)]
pub struct Game<'a> {
    pub case: &'a Case,
    pub lent: Lent<'a>,
    pub dice: Dice,
}

impl Game<'_> {
    // The comparison after a call, by what is wrong with the record.
    fn compared(&self, session: Session, seen: Seen, record: Option<Fault>) -> Played {
        let read = due::read(&session);
        let mut next = seen;
        next.depth = read.field.max(read.trim);
        next.record = record;
        next.fault = seen.fault.or(judge::first_fault(self.case, &next));
        Played {
            session,
            seen: next,
        }
    }

    // A session just opened.
    fn opened(&self) -> Played {
        let step = calls::open(self.lent, self.case.asked);
        let due = due::opened(self.case.asked, self.case.rows);
        let fault = judge::differs(&due, &step.session);
        self.compared(step.session, told(UNSEEN, step.answer), fault)
    }

    // One call, and the comparison after it.
    fn called(&self, before: Played, call: Call) -> Played {
        let Played { session, seen } = before;
        let step = call.on(self.lent, session);
        let mut next = told(seen, step.answer);
        next.due = self.case.answer(due::read(&session), seen.count, call);
        let due = self.case.session(&session, next.said, next.pairs());
        let hidden = hidden(
            self.case.asked.card,
            self.lent,
            &session,
            &step.session,
            next.said,
        );
        let fault = judge::differs(&due, &step.session).or(hidden);
        self.compared(step.session, next, fault)
    }

    // A session from its opening to its end, and a read and a take after it.
    pub fn whole(&self, tally: &mut Tally) -> Played {
        let order = Order::of(self.dice);
        let mut now = self.opened();
        for step in 1000u64..1600 {
            if now.seen.said == Said::Finished {
                break;
            }
            let call = order.next(now.seen.said, self.dice.one_in(step, 2));
            refused::calls(self, &now.session, self.dice.at_step(step), tally);
            now = self.called(now, call);
            counted(&now.seen, tally);
        }
        self.called(self.called(now, Call::Read), Call::Take)
    }
}

fn counted(seen: &Seen, tally: &mut Tally) {
    tally.answer(seen.said);
    count_if(&mut tally.ties, seen.said == Said::Given && seen.is_tie());
}

// A whole query at once, as its caller sees it.
pub fn at_once(lent: Lent, asked: Asked) -> Seen {
    let run = calls::run(lent, asked);
    let read = due::read(&run.session);
    Seen {
        given: run.pairs,
        count: run.count % 65,
        said: match run.opening.and(run.reading) {
            Ok(()) => Said::Finished,
            Err(by) => Said::Refused(by),
        },
        due: Said::Finished,
        depth: read.field.max(read.trim),
        ..UNSEEN
    }
}
