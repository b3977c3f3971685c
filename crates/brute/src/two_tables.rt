// The two tables, and the two cards that they can be on.
ghost use Rattle.std.specs.Prelude.{◌<◌, ◌≤◌};

// One of the two tables.
#[derive(Clone, Copy, PartialEq, Eq)]
pub enum Which {
    Field,
    Trim,
}

impl Which {
    pub fn other(self) -> Which {
        match self {
            Which::Field => Which::Trim,
            Which::Trim => Which::Field,
        }
    }

    // A value of this table, and one of the other.
    pub fn both<T>(self, own: T, other: T) -> Both<T> {
        match self {
            Which::Field => Both {
                field: own,
                trim: other,
            },
            Which::Trim => Both {
                field: other,
                trim: own,
            },
        }
    }
}

// A value of each table.
#[derive(Clone, Copy)]
pub struct Both<T> {
    pub field: T,
    pub trim: T,
}

impl<T: Copy> Both<T> {
    pub fn of(self, which: Which) -> T {
        match which {
            Which::Field => self.field,
            Which::Trim => self.trim,
        }
    }

    // With another value of one table.
    pub fn with(self, which: Which, x: T) -> Both<T> {
        which.both(x, self.of(which.other()))
    }
}

// So many rows of each table.
pub type Rows = Both<u32>;

// The numbers of each table, as they are lent to a call.
pub type Lent<'a> = Both<&'a [i32]>;

// What a shade is measured by: a and b; or a, b and L.
#[derive(Clone, Copy, PartialEq, Eq)]
pub enum Card {
    Old,
    New,
}

impl Card {
    pub fn coordinates(self) -> u32
        ensures { result ≤ 3 }
    {
        match self {
            Card::Old => 2,
            Card::New => 3,
        }
    }

    // The numbers of a row: pattern, score and shade.
    pub fn columns(self) -> u32
        ensures some { 0 < result }
        ensures few { result ≤ 5 }
    {
        self.coordinates() + 2
    }

    pub fn other(self) -> Card {
        match self {
            Card::Old => Card::New,
            Card::New => Card::Old,
        }
    }

    // How many numbers so many rows have.
    pub fn numbers(self, rows: u32) -> usize {
        match self {
            Card::Old => 4 * rows as usize,
            Card::New => 5 * rows as usize,
        }
    }

    // The kind of its field table or trim table.
    pub fn kind(self, which: Which) -> u32 {
        match (self, which) {
            (Card::Old, Which::Field) => 1,
            (Card::Old, Which::Trim) => 2,
            (Card::New, Which::Field) => 3,
            (Card::New, Which::Trim) => 4,
        }
    }
}

// The first of some values; all, if there are not so many.
pub fn first<T>(values: &[T], n: usize) -> &[T] {
    if n <= values.len() {
        return &values[..n];
    }
    values
}
