// What the rules ask of a session, found from the double loop: which answers are due, and which record.
use crate::calls::Call;
use crate::plain::{self, Asked, Sums, Tables};
use crate::two_tables::{Both, Rows, Which};
use rules::{
    Answer, Counts, FieldRows, FieldTolerance, FieldWeight, Meaning, NO_PAIR, PLACES, Pair, Query,
    Refusal, Session, Tolerances, TrimRows, TrimTolerance, TrimWeight, TwoTables, Weights,
};

// An answer, but for the pair.
#[derive(Clone, Copy, PartialEq, Eq)]
pub enum Said {
    Refused(Refusal),
    Opened,
    Read,
    Settled,
    Given,
    NotYet,
    Finished,
}

impl From<Answer> for Said {
    fn from(answer: Answer) -> Said {
        match answer {
            Answer::Refused(by) => Said::Refused(by),
            Answer::Opened => Said::Opened,
            Answer::Read => Said::Read,
            Answer::Settled => Said::Settled,
            Answer::Given(_) => Said::Given,
            Answer::NotYet => Said::NotYet,
            Answer::Finished => Said::Finished,
        }
    }
}

// The rows that a session has read.
pub fn read(s: &Session) -> Rows {
    Both {
        field: s.depth.field.0,
        trim: s.depth.trim.0,
    }
}

fn depth(read: Rows) -> Counts {
    Counts {
        field: FieldRows(read.field),
        trim: TrimRows(read.trim),
    }
}

// The record of zeros.
pub const NO_SESSION: Session = Session {
    query: Query {
        k: 0,
        block: 0,
        radius: 0,
        weights: Weights {
            field: FieldWeight(0),
            trim: TrimWeight(0),
        },
        tolerances: Tolerances {
            field: FieldTolerance(0),
            trim: TrimTolerance(0),
        },
        meaning: Meaning::Possibly,
    },
    rows: TwoTables {
        field: FieldRows(0),
        trim: TrimRows(0),
        card: 0,
    },
    depth: Counts {
        field: FieldRows(0),
        trim: TrimRows(0),
    },
    last: 0,
    out: 0,
    held: 0,
    pairs: [NO_PAIR; PLACES],
    joined: 0,
};

// The session of an opening.
pub fn opened(asked: Asked, rows: Rows) -> Session {
    Session {
        query: asked.query,
        rows: TwoTables {
            field: FieldRows(rows.field),
            trim: TrimRows(rows.trim),
            card: asked.card.coordinates(),
        },
        ..NO_SESSION
    }
}

// What is asked of two tables, what the double loop says of them, whether no shades can meet the query, how many rows
// the tables have and how many of these stand above a withdrawn one, and the most rows that may be read of one.
#[derive(Clone, Copy)]
pub struct Case {
    pub asked: Asked,
    pub sums: Sums,
    pub none: bool,
    pub rows: Rows,
    pub live: Rows,
    pub limit: u32,
}

impl Case {
    pub fn new(tables: &Tables) -> Case {
        let mut case = Case {
            asked: tables.asked,
            sums: tables.sums(),
            none: plain::none_qualify(&tables.asked),
            rows: tables.rows,
            live: Both {
                field: plain::live(tables.field, tables.rows.field),
                trim: plain::live(tables.trim, tables.rows.trim),
            },
            limit: 0,
        };
        case.limit = case
            .least_sure()
            .wrapping_add(tables.asked.query.block)
            .wrapping_sub(1);
        case
    }

    // Whether a table has no row.
    pub fn has_empty(&self) -> bool {
        self.rows.field == 0 || self.rows.trim == 0
    }

    pub fn k(&self) -> usize {
        self.asked.query.k as usize
    }

    // Whether a table of which so many rows are read is read out: all its rows, or a withdrawn one, are read.
    fn is_out(&self, which: Which, read: Rows) -> bool {
        let depth = read.of(which);
        depth == self.rows.of(which) || self.live.of(which) < depth
    }

    // Whether it counts as empty.
    fn is_empty(&self, which: Which, read: Rows) -> bool {
        self.rows.of(which) == 0 || (self.live.of(which) == 0 && 0 < read.of(which))
    }

    // Whether nothing can qualify, a table is empty, or both are read out.
    fn all_read(&self, read: Rows) -> bool {
        self.none
            || self.is_empty(Which::Field, read)
            || self.is_empty(Which::Trim, read)
            || (self.is_out(Which::Field, read) && self.is_out(Which::Trim, read))
    }

    // The sum of the row of a table that was read last with the first row of the other.
    fn last_sum(&self, which: Which, read: Rows) -> u32 {
        let rows = which.both(read.of(which), 1);
        self.sums.sum(rows.field, rows.trim)
    }

    // No pair with an unread row of a table has a higher sum than this.
    fn ceiling(&self, which: Which, read: Rows) -> u32 {
        if self.is_out(which, read) {
            return 0;
        }
        self.last_sum(which, read)
    }

    // How many of the pairs read no pair with an unread row can outdo.
    fn secured(&self, read: Rows) -> usize {
        let field = self.ceiling(Which::Field, read);
        let trim = self.ceiling(Which::Trim, read);
        self.sums.reaching(read, field.max(trim))
    }

    // Whether the reading is sure of k.
    pub fn sure(&self, read: Rows) -> bool {
        self.all_read(read) || self.k() <= self.secured(read)
    }

    // The least deeper depth of a sure reading.
    fn least_sure(&self) -> u32 {
        let mut least = 12;
        for field in 0u32..13 {
            for trim in 0u32..13 {
                let read = Both { field, trim };
                if field <= self.rows.field && trim <= self.rows.trim && self.sure(read) {
                    least = least.min(field.max(trim));
                }
            }
        }
        least
    }

    // What a call must answer, with so many pairs out.
    pub fn answer(&self, read: Rows, out: usize, call: Call) -> Said {
        match call {
            Call::Read if self.sure(read) => Said::Settled,
            Call::Read => Said::Read,
            Call::Take if out < self.k() && out < self.secured(read) => Said::Given,
            Call::Take if out == self.k() || self.all_read(read) => Said::Finished,
            Call::Take => Said::NotYet,
        }
    }

    // The table that is read next.
    fn next(&self, read: Rows) -> Which {
        if read.field == 0 {
            return Which::Field;
        }
        if read.trim == 0 || self.is_out(Which::Field, read) {
            return Which::Trim;
        }
        if self.is_out(Which::Trim, read) {
            return Which::Field;
        }
        let best = self.sums.sum(1, 1);
        let field = best.abs_diff(self.last_sum(Which::Field, read));
        let trim = best.abs_diff(self.last_sum(Which::Trim, read));
        if field < trim || (field == trim && read.field <= read.trim) {
            return Which::Field;
        }
        Which::Trim
    }
}

// A block that is read: the table, the rows above it, the row that it ends with, and how many the other table has read.
#[derive(Clone, Copy)]
struct Block {
    of: Which,
    after: u32,
    end: u32,
    other: u32,
}

impl Case {
    // How many pairs have this sum or a higher one, of so many rows of the table that is read and of the other.
    fn reaching(&self, of: Which, own: u32, other: u32, least: u32) -> usize {
        self.sums.reaching(of.both(own, other), least)
    }

    // Whether a block joins the other table's block after so many rows: not if k pairs of what was met before have a
    // higher sum than the blocks' first rows, and not if the blocks lie too far apart.
    fn joins(&self, block: Block, after: u32) -> bool {
        let Block {
            of,
            after: own,
            end,
            other,
        } = block;
        let above = of.both(own, after);
        let first = self
            .sums
            .at(above.field.wrapping_add(1), above.trim.wrapping_add(1));
        let least = first.pair.sum.wrapping_add(1);
        let before = self.reaching(of, own, other, least);
        let old = self.reaching(of, own, after, least);
        let new = self.reaching(of, end, after, least);
        let has_room = before.wrapping_add(new.abs_diff(old)) < self.k();
        plain::begins(self.asked.query.block, after) && has_room && !first.far
    }

    // How many block pairs are joined where a block is read.
    fn joined(&self, block: Block) -> u64 {
        let mut n = 0u64;
        for after in 0..block.other {
            n = n.wrapping_add(u64::from(self.joins(block, after)));
        }
        n
    }

    // The session with one block more read.
    fn read_on(&self, s: &Session) -> Session {
        let now = read(s);
        let of = self.next(now);
        let after = now.of(of);
        let block = Block {
            of,
            after,
            end: after
                .wrapping_add(self.asked.query.block)
                .min(self.rows.of(of)),
            other: now.of(of.other()),
        };
        Session {
            depth: depth(now.with(of, block.end)),
            last: match of {
                Which::Field => 1,
                Which::Trim => 2,
            },
            joined: s.joined.wrapping_add(self.joined(block)),
            ..*s
        }
    }

    // The session with the pairs that it must hold: the best-ranked of those read and not out, at most k less those
    // out.
    fn with_held(&self, s: &Session, given: &[Pair]) -> Session {
        let now = read(s);
        let mut left = self.sums;
        for p in given {
            left.remove(*p);
        }
        let room = self.k().saturating_sub(s.out as usize);
        let mut held = 0u32;
        let mut pairs = [NO_PAIR; PLACES];
        for place in pairs.iter_mut().take(room) {
            if let Some(p) = left.best(now) {
                *place = p;
                held = held.wrapping_add(1);
                left.remove(p);
            }
        }
        Session { held, pairs, ..*s }
    }

    // The session that a call with s must give back which answered so, these pairs being out.
    pub fn session(&self, s: &Session, said: Said, given: &[Pair]) -> Session {
        match said {
            Said::Read => self.with_held(&self.read_on(s), given),
            Said::Given => {
                let out = s.out.wrapping_add(1);
                self.with_held(&Session { out, ..*s }, given)
            }
            _ => *s,
        }
    }
}
