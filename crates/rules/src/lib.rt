// The values that the rules speak of: query, pair, record, answers. No code but what one is as another.
// What they mean stands in specs/, in the rules' order.
#![tactic(auto)]

ghost use Rattle.std.specs.Prelude.{◌≡◌};
ghost use Rattle.rules.specs.Numbers.{number_of, meaning_number, meaning_of};

// What a call or a file is refused by: the table of refusals, in the order of its numbers.
#[derive(Clone, Copy, PartialEq, Eq)]
pub enum Refusal {
    ListLength,
    BlockSize,
    RadiusRange,
    TableSize,
    BadRecord,
    RowLimit,
    RowOrder,
    CutFile,
    BadColumn,
    WrongKind,
    ShortSlice,
    WeightRange,
    OtherCard,
    ToleranceRange,
}

// Its number in the table.
impl From<Refusal> for u32 {
    ghost from_gives = { λ r n. n ≡ number_of r };

    fn from(refusal: Refusal) -> u32 {
        match refusal {
            Refusal::ListLength => 1,
            Refusal::BlockSize => 2,
            Refusal::RadiusRange => 3,
            Refusal::TableSize => 4,
            Refusal::BadRecord => 5,
            Refusal::RowLimit => 6,
            Refusal::RowOrder => 7,
            Refusal::CutFile => 8,
            Refusal::BadColumn => 9,
            Refusal::WrongKind => 10,
            Refusal::ShortSlice => 11,
            Refusal::WeightRange => 12,
            Refusal::OtherCard => 15,
            Refusal::ToleranceRange => 16,
        }
    }
}

// The largest list length: so many pair places has a record.
pub const PLACES: usize = 64;

// The rows of the longest table.
pub const MOST_ROWS: u32 = 65535;

// The largest sum of two weighted scores, 9 times 9,999 each.
pub const MOST_SUM: u32 = 179982;

// The largest tolerance of a table.
pub const MOST_TOLERANCE: u32 = 500;

// The bytes of a strict file's header.
pub const HEADER_BYTES: usize = 13;

// The rows of the program's longest file, and the bytes of its input.
pub const PROGRAM_ROWS: usize = 512;

pub const INPUT_LENGTH: usize = 19;

// What a shade is measured by, in hundredths: a* and b*; or a*, b* and L*.
#[derive(Clone, Copy, PartialEq, Eq)]
pub enum Card {
    Old,
    New,
}

// A count of field rows: the field table's row count, or its depth (d_R in Qi, Bouros and Mamoulis, Top-k Spatial
// Distance Joins, 2020). Counts, kinds, weights and tolerances have two types each: a generic one for each table would
// be no plainer, since it would want a type for each of the four all the same.
#[derive(Clone, Copy, PartialEq, Eq)]
pub struct FieldRows(pub u32);

// A count of trim rows: the trim table's row count, or its depth (d_S there).
#[derive(Clone, Copy, PartialEq, Eq)]
pub struct TrimRows(pub u32);

// One count of each table.
#[derive(Clone, Copy, PartialEq, Eq)]
pub struct Counts {
    pub field: FieldRows,
    pub trim: TrimRows,
}

// The kind of a field table, 1 or 3, and of a trim table, 2 or 4: the lower one is on the old card. No enum: any number
// may be given, and 10 refuses those that are no kind of the table (`kind_code`).
#[derive(Clone, Copy, PartialEq, Eq)]
pub struct FieldKind(pub u32);

#[derive(Clone, Copy, PartialEq, Eq)]
pub struct TrimKind(pub u32);

#[derive(Clone, Copy, PartialEq, Eq)]
pub struct Kinds {
    pub field: FieldKind,
    pub trim: TrimKind,
}

// What opening fixes of the two tables: their row counts, and their card, by the number of its coordinates. No enum: a
// record may come with any number there, which 5 refuses (`record_grounds`).
#[derive(Clone, Copy, PartialEq, Eq)]
pub struct TwoTables {
    pub field: FieldRows,
    pub trim: TrimRows,
    pub card: u32,
}

// What a field row's score counts for, 1 to 9 times.
#[derive(Clone, Copy, PartialEq, Eq)]
pub struct FieldWeight(pub u32);

// What a trim row's score counts for.
#[derive(Clone, Copy, PartialEq, Eq)]
pub struct TrimWeight(pub u32);

// One weight of each table.
#[derive(Clone, Copy, PartialEq, Eq)]
pub struct Weights {
    pub field: FieldWeight,
    pub trim: TrimWeight,
}

// How far a field row's shade may lie from where its table has it, in every coordinate.
#[derive(Clone, Copy, PartialEq, Eq)]
pub struct FieldTolerance(pub u32);

// How far a trim row's may.
#[derive(Clone, Copy, PartialEq, Eq)]
pub struct TrimTolerance(pub u32);

// One tolerance of each table.
#[derive(Clone, Copy, PartialEq, Eq)]
pub struct Tolerances {
    pub field: FieldTolerance,
    pub trim: TrimTolerance,
}

// Whether a pair qualifies if it does for some places of its shades within their tolerances, or only if it does for all
// of them.
#[derive(Clone, Copy, PartialEq, Eq)]
pub enum Meaning {
    Possibly,
    Surely,
}

// A meaning as a number, and the meaning that a number is.
impl From<Meaning> for u32 {
    ghost from_gives = { λ m n. n ≡ meaning_number m };

    fn from(meaning: Meaning) -> u32 {
        match meaning {
            Meaning::Possibly => 0,
            Meaning::Surely => 1,
        }
    }
}

impl From<u32> for Meaning {
    ghost from_gives = { λ n m. m ≡ meaning_of n };

    #[tactic(auto, unfolding(crate::specs::Numbers::meaning_of))]
    fn from(number: u32) -> Meaning {
        match number {
            0 => Meaning::Possibly,
            _ => Meaning::Surely,
        }
    }
}

// What a list is asked for: its length k, the block size in rows, the radius, the weights, the tolerances and what is
// made of them.
#[derive(Clone, Copy, PartialEq, Eq)]
pub struct Query {
    pub k: u32,
    pub block: u32,
    pub radius: u32,
    pub weights: Weights,
    pub tolerances: Tolerances,
    pub meaning: Meaning,
}

// The lowest and the highest of one coordinate of some rows: a side of their rectangle.
#[derive(Clone, Copy, PartialEq, Eq)]
pub struct Side {
    pub low: i32,
    pub high: i32,
}

// A field row and a trim row, numbered from 1, and their sum.
#[derive(Clone, Copy, PartialEq, Eq)]
pub struct Pair {
    pub sum: u32,
    pub field: u32,
    pub trim: u32,
}

// A pair place that holds none.
pub const NO_PAIR: Pair = Pair {
    sum: 0,
    field: 0,
    trim: 0,
};

// The session's record: a value that goes in and comes back.
#[derive(Clone, Copy, PartialEq, Eq)]
pub struct Session {
    pub query: Query,
    // The tables' row counts, and their card.
    pub rows: TwoTables,
    // Rows read of each table.
    pub depth: Counts,
    // The table read last: 0 none, 1 field, 2 trim. No enum: a record may come with any, which 5 refuses (`mark_fits`).
    pub last: u32,
    // Pairs out.
    pub out: u32,
    // Pairs held: so many of the 64 places, from the front. Fixed memory, and the record's layout in C: no list.
    pub held: u32,
    pub pairs: [Pair; PLACES],
    // Block pairs joined.
    pub joined: u64,
}

// What a call of the session answers.
#[derive(Clone, Copy, PartialEq, Eq)]
pub enum Answer {
    // What the call is refused by.
    Refused(Refusal),
    // Opening: accepted.
    Opened,
    // Read: a block was read.
    Read,
    // Read: nothing unread can matter.
    Settled,
    // Take: the pair brought out.
    Given(Pair),
    // Take: no held pair is secured yet.
    NotYet,
    // Take: the list is complete.
    Finished,
}

// What opening, read and take give back.
#[derive(Clone, Copy, PartialEq, Eq)]
pub struct Step {
    pub answer: Answer,
    pub session: Session,
}

// What a strict file is refused by.
#[derive(Clone, Copy, PartialEq, Eq)]
pub struct Unfit {
    pub refusal: Refusal,
    // The row that goes with it; 0 where none does.
    pub row: u32,
}

impl From<Unfit> for Refusal {
    ghost from_gives = { λ u r. r ≡ u.refusal };

    fn from(unfit: Unfit) -> Refusal {
        unfit.refusal
    }
}
