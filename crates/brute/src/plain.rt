// The double loop: it reads rows, adds scores and squares distances by code of its own, for every field row with every
// trim row, and ranks the pairs. Rows are numbered from 1, and all have an L here: 0 on the old card.
ghost use Rattle.std.specs.Prelude.{◌<◌};

use crate::two_tables::{Both, Card, Rows, first};
use rules::{Meaning, NO_PAIR, Pair, Query};

#[derive(Clone, Copy)]
pub struct Row {
    pub pattern: i32,
    pub score: u32,
    pub a: i32,
    pub b: i32,
    pub light: i32,
}

// A row of zeros.
pub const NO_ROW: Row = Row {
    pattern: 0,
    score: 0,
    a: 0,
    b: 0,
    light: 0,
};

pub type Table = [Row; 12];

// What is asked of two tables on a card.
#[derive(Clone, Copy)]
pub struct Asked {
    pub card: Card,
    pub query: Query,
}

// What the double loop says of a pair.
#[derive(Clone, Copy)]
pub struct Told {
    pub pair: Pair,
    pub qualifies: bool,
    // Blocks begin with its rows that lie too far apart.
    pub far: bool,
    // L alone keeps its shades apart.
    pub by_light: bool,
    // The tolerances alone decide whether its shades qualify.
    pub by_tolerance: bool,
}

impl Told {
    // Whether its rows are read.
    fn is_read(&self, read: Rows) -> bool {
        self.pair.field <= read.field && self.pair.trim <= read.trim
    }
}

const NOTHING: Told = Told {
    pair: NO_PAIR,
    qualifies: false,
    far: false,
    by_light: false,
    by_tolerance: false,
};

// What it says of each pair. Row 0 stands for none.
#[derive(Clone, Copy)]
pub struct Sums([Told; 169]);

// How much y is more than x.
fn above(x: i32, y: i32) -> u32 {
    if x < y { y.abs_diff(x) } else { 0 }
}

fn square(n: u32) -> u64 {
    let wide = u64::from(n);
    wide * wide
}

fn is_live(x: Row) -> bool {
    x.score != 0
}

// How many of the rows stand above the first that is withdrawn.
pub fn live(t: &Table, rows: u32) -> u32 {
    for i in 0u32..12 {
        if rows <= i || !is_live(t[i as usize]) {
            return i;
        }
    }
    12
}

// The sum of a pair.
fn sum(query: &Query, x: Row, y: Row) -> u32 {
    let field = query.weights.field.0.wrapping_mul(x.score);
    field.wrapping_add(query.weights.trim.0.wrapping_mul(y.score))
}

// Whether two shades lie within the radius, as they stand.
fn near(radius: u32, x: Row, y: Row) -> bool {
    let a = square(x.a.abs_diff(y.a));
    let b = square(x.b.abs_diff(y.b));
    let light = square(x.light.abs_diff(y.light));
    a.wrapping_add(b).wrapping_add(light) <= square(radius)
}

// How many places a shade may have within a tolerance of 0, 1 or 2.
fn place_count(card: Card, tolerance: u32) -> u32 {
    let counts = match card {
        Card::Old => [1, 9, 25],
        Card::New => [1, 27, 125],
    };
    counts[tolerance as usize % 3]
}

fn moved(x: i32, tolerance: u32, by: u32) -> i32 {
    x.wrapping_add_unsigned(by)
        .wrapping_sub(tolerance.cast_signed())
}

// One of these places, by its number.
fn place_at(card: Card, tolerance: u32, x: Row, i: u32) -> Row {
    let n = 2 * (tolerance % 3) + 1;
    let light = match card {
        Card::Old => x.light,
        Card::New => moved(x.light, tolerance, i / n / n % n),
    };
    Row {
        a: moved(x.a, tolerance, i % n),
        b: moved(x.b, tolerance, i / n % n),
        light,
        ..x
    }
}

// Whether two shades qualify: surely, for all places within both tolerances; possibly, for some.
fn shades_qualify(asked: &Asked, x: Row, y: Row) -> bool {
    let Query {
        radius,
        tolerances,
        meaning,
        ..
    } = asked.query;
    let of_field = place_count(asked.card, tolerances.field.0);
    let of_trim = place_count(asked.card, tolerances.trim.0);
    let is_near = |i, j| {
        let field = place_at(asked.card, tolerances.field.0, x, i);
        near(radius, field, place_at(asked.card, tolerances.trim.0, y, j))
    };
    match meaning {
        Meaning::Surely => (0..of_field).all(|i| (0..of_trim).all(|j| is_near(i, j))),
        Meaning::Possibly => (0..of_field).any(|i| (0..of_trim).any(|j| is_near(i, j))),
    }
}

// Whether not even a shade and its like qualify.
pub fn none_qualify(asked: &Asked) -> bool {
    !shades_qualify(asked, NO_ROW, NO_ROW)
}

// The lowest and the highest of some numbers.
#[derive(Clone, Copy)]
struct Ends {
    low: i32,
    high: i32,
}

// Those of one coordinate of a block's rows, withdrawn ones too.
fn ends_of<F: Fn(&Row) -> i32>(block: &[Row], coordinate: F) -> Ends
    requires { F.IsAlwaysCallable coordinate }
{
    let mut ends = Ends {
        low: i32::MAX,
        high: i32::MIN,
    };
    for row in block {
        let x = coordinate(row);
        ends = Ends {
            low: ends.low.min(x),
            high: ends.high.max(x),
        };
    }
    ends
}

// What lies between the nearer ends of two blocks in one coordinate, less both tolerances, squared.
fn gap_squared<F: Fn(&Row) -> i32>(query: &Query, blocks: Both<&[Row]>, coordinate: F) -> u64
    requires { F.IsAlwaysCallable coordinate }
{
    let x = ends_of(blocks.field, &coordinate);
    let y = ends_of(blocks.trim, &coordinate);
    let between = above(x.high, y.low).max(above(y.high, x.low));
    let less = between.saturating_sub(query.tolerances.field.0);
    square(less.saturating_sub(query.tolerances.trim.0))
}

// Whether two blocks lie too far apart for a pair.
fn far(query: &Query, blocks: Both<&[Row]>) -> bool {
    let a = gap_squared(query, blocks, |row| row.a);
    let b = gap_squared(query, blocks, |row| row.b);
    let light = gap_squared(query, blocks, |row| row.light);
    square(query.radius) < a.wrapping_add(b).wrapping_add(light)
}

// Whether a block begins after so many rows.
pub fn begins(block: u32, rows: u32) -> bool {
    block != 0 && rows % block == 0
}

// Whether two shades are near by a and b, and L alone keeps them apart.
fn apart_by_light(radius: u32, x: Row, y: Row) -> bool {
    let z = Row {
        light: x.light,
        ..y
    };
    near(radius, x, z) && !near(radius, x, y)
}

// The rows of the block that begins after so many, of a table of so many rows; one at least.
fn block_after(t: &Table, after: u32, block: u32, rows: u32) -> &[Row]
    requires { after < 12 }
{
    let n = block.min(rows.saturating_sub(after)).max(1);
    first(&t[after as usize..], n as usize)
}

// Two tables of so many rows, and what is asked of them.
#[derive(Clone, Copy)]
pub struct Tables<'a> {
    pub asked: Asked,
    pub field: &'a Table,
    pub trim: &'a Table,
    pub rows: Rows,
}

impl Tables<'_> {
    // Whether blocks begin after row i and row j that lie too far apart.
    fn begin_far(&self, i: u32, j: u32) -> bool
        requires field { i < 12 }
        requires trim { j < 12 }
    {
        let query = &self.asked.query;
        let blocks = Both {
            field: block_after(self.field, i, query.block, self.rows.field),
            trim: block_after(self.trim, j, query.block, self.rows.trim),
        };
        begins(query.block, i) && begins(query.block, j) && far(query, blocks)
    }

    // What is told of the rows after row i and row j.
    fn told_after(&self, i: u32, j: u32) -> Told
        requires field { i < 12 }
        requires trim { j < 12 }
    {
        let x = self.field[i as usize];
        let y = self.trim[j as usize];
        let query = &self.asked.query;
        let shades = shades_qualify(&self.asked, x, y);
        Told {
            pair: Pair {
                sum: sum(query, x, y),
                field: i + 1,
                trim: j + 1,
            },
            qualifies: is_live(x) && is_live(y) && shades,
            far: self.begin_far(i, j),
            by_light: apart_by_light(query.radius, x, y),
            by_tolerance: near(query.radius, x, y) != shades,
        }
    }

    // Every row with every row.
    pub fn sums(&self) -> Sums {
        let mut all = [NOTHING; 169];
        for i in 0u32..12 {
            for j in 0u32..12 {
                all[at(i + 1, j + 1)] = self.told_after(i, j);
            }
        }
        Sums(all)
    }
}

// Where a pair stands.
fn at(i: u32, j: u32) -> usize
    ensures { result < 169 }
{
    (13 * (i % 13) + j % 13) as usize
}

// Whether x ranks before y.
fn ahead(x: Pair, y: Pair) -> bool {
    let rows = x.field < y.field || (x.field == y.field && x.trim < y.trim);
    y.sum < x.sum || (x.sum == y.sum && rows)
}

impl Sums {
    pub fn at(&self, i: u32, j: u32) -> Told {
        self.0[at(i, j)]
    }

    pub fn sum(&self, i: u32, j: u32) -> u32 {
        self.at(i, j).pair.sum
    }

    // How many pairs of a reading are so.
    pub fn count<F: Fn(&Told) -> bool>(&self, read: Rows, is_so: F) -> usize
        requires { F.IsAlwaysCallable is_so }
    {
        self.0
            .iter()
            .filter(|told| told.is_read(read) && is_so(told))
            .count()
    }

    // How many qualifying pairs of a reading have at least this sum.
    pub fn reaching(&self, read: Rows, least: u32) -> usize {
        self.count(read, |told| told.qualifies && least <= told.pair.sum)
    }

    // The best-ranked of a reading's qualifying pairs.
    pub fn best(&self, read: Rows) -> Option<Pair> {
        let mut best = None;
        for told in &self.0 {
            if told.qualifies && told.is_read(read) {
                best = match best {
                    Some(other) if ahead(other, told.pair) => best,
                    _ => Some(told.pair),
                };
            }
        }
        best
    }

    // The same, but that a pair does not qualify.
    pub fn remove(&mut self, p: Pair) {
        let told = &mut self.0[at(p.field, p.trim)];
        told.qualifies = false;
    }
}
