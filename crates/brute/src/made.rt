// Tables and queries made from a seed: ties, plateaus, zero scores, empty tables, extreme shades, shades that drift; on
// the new card many that only L tells apart.
use crate::dice::Dice;
use crate::plain::{Asked, NO_ROW, Row, Table};
use crate::two_tables::Card;
use rules::{
    FieldTolerance, FieldWeight, Meaning, Query, Tolerances, TrimTolerance, TrimWeight, Weights,
};

// How scores and shades are spread.
#[derive(Clone, Copy)]
struct Spread {
    dice: Dice,
    card: Card,
    top: u32,
    // The most that a score falls from row to row, and where it stops.
    fall: u32,
    least: u32,
    // Scores fall over the first three rows only.
    plateau: bool,
    // How many of the small shades there are beside the first.
    shades: u32,
    extreme: bool,
    // How many of the lights there are beside the first.
    lights: u32,
    // a, or L on the new card, goes on from row to row.
    drifting: bool,
}

const EXTREME: [i32; 5] = [-12800, 12700, -12800, 12700, 0];

const SMALL: [i32; 12] = [0, 0, 1, -1, 2, -2, 3, 4, -5, 9, -13, 40];

const LIGHTS: [i32; 12] = [0, 10000, 1, 9999, 2, 5, 13, 40, 41, 9960, 5000, 3];

const DRIFTING: [i32; 16] = [
    -90, -71, -60, -41, -40, -22, -13, -9, 0, 4, 5, 18, 30, 43, 60, 90,
];

const FADING: [i32; 16] = [
    0, 3, 9, 13, 20, 33, 40, 41, 60, 73, 90, 95, 100, 140, 150, 160,
];

// On the new card every second table has a and b 0 throughout.
fn shades(dice: Dice, card: Card) -> u32 {
    match card {
        Card::Old => dice.pick(4, [0, 1, 3, 3, 5, 7, 9, 11]),
        Card::New => dice.pick(4, [0, 0, 0, 0, 1, 3, 7, 11]),
    }
}

impl Spread {
    // Every fourth seed's shades drift: those of both tables of a case.
    fn new(dice: Dice, card: Card) -> Spread {
        let least = dice.pick(14, [0, 0, 0, 1, 1, 1, 1, 1]);
        let top = dice.pick(1, [0, 1, 3, 8, 20, 60, 400, 9999]);
        Spread {
            dice,
            card,
            top: least.max(top),
            fall: dice.pick(2, [1, 1, 2, 2, 5, 5, 60, 1000]),
            least,
            plateau: dice.one_in(3, 3),
            shades: shades(dice, card),
            extreme: dice.one_in(5, 6),
            lights: dice.pick(15, [0, 1, 1, 3, 5, 7, 9, 11]),
            drifting: dice.0 % 4 == 3,
        }
    }

    // The one of row i + 1, or one of the next three.
    fn drifted(&self, place: u64, i: u32, of: [i32; 16]) -> i32 {
        let on = self.dice.below(place, 4);
        of[(i.wrapping_add(on) % 16) as usize]
    }

    fn shade(&self, place: u64) -> i32 {
        if self.extreme {
            return EXTREME[self.dice.below(place, 5) as usize];
        }
        let i = self.dice.below(place, self.shades.wrapping_add(1));
        SMALL[(i % 12) as usize]
    }

    // The a of row i + 1.
    fn first_shade(&self, place: u64, i: u32) -> i32 {
        if self.drifting && self.card == Card::Old {
            return self.drifted(place, i, DRIFTING);
        }
        self.shade(place)
    }

    // The L of row i + 1; 0 on the old card.
    fn light(&self, place: u64, i: u32) -> i32 {
        if self.card == Card::Old {
            return 0;
        }
        if self.drifting {
            return self.drifted(place, i, FADING);
        }
        let n = self.dice.below(place, self.lights.wrapping_add(1));
        LIGHTS[(n % 12) as usize]
    }

    // The score of row i + 1, after a row of score s.
    fn score(&self, i: u32, s: u32) -> u32 {
        if i == 0 || (self.plateau && 2 < i) {
            return s;
        }
        let fall = self.dice.below(u64::from(i), self.fall.wrapping_add(1));
        s.saturating_sub(fall).max(self.least)
    }

    // Row i + 1, of score s.
    fn row(&self, i: u32, score: u32) -> Row {
        let place = u64::from(i);
        Row {
            pattern: self
                .dice
                .pick(place + 100, [1, 1, 2, 3, 78, 500001, 999998, 999999]),
            score,
            a: self.first_shade(place + 200, i),
            b: self.shade(place + 300),
            light: self.light(place + 400, i),
        }
    }
}

// A legal table of 12 rows.
pub fn table(dice: Dice, card: Card) -> Table {
    let spread = Spread::new(dice, card);
    let mut t = [NO_ROW; 12];
    let mut s = spread.top;
    for i in 0u32..12 {
        s = spread.score(i, s);
        t[i as usize] = spread.row(i, s);
    }
    t
}

// On the new card also just less than L's range, and all of it.
fn radius(dice: Dice, card: Card) -> u32 {
    match card {
        Card::Old => dice.pick(8, [0, 1, 2, 5, 13, 40, 25500, 40000]),
        Card::New => dice.pick(8, [0, 1, 5, 13, 40, 9999, 10000, 25500]),
    }
}

// Weights are often equal, so that ties are, and some make ties of unlike scores.
fn weights(dice: Dice) -> Weights {
    Weights {
        field: FieldWeight(dice.pick(12, [1, 1, 1, 1, 2, 3, 9, 9])),
        trim: TrimWeight(dice.pick(13, [1, 1, 1, 2, 3, 4, 9, 9])),
    }
}

// Tolerances are small, so that every place within them can be looked at, and often none.
fn tolerances(dice: Dice) -> Tolerances {
    Tolerances {
        field: FieldTolerance(dice.pick(16, [0, 0, 0, 0, 0, 1, 1, 2])),
        trim: TrimTolerance(dice.pick(17, [0, 0, 0, 0, 0, 1, 1, 2])),
    }
}

// What is asked on a card.
pub fn asked(dice: Dice, card: Card) -> Asked {
    let query = Query {
        k: dice.pick(6, [1, 2, 3, 4, 5, 8, 8, 64]),
        block: dice.pick(7, [1, 1, 2, 2, 3, 4, 4, 1024]),
        radius: radius(dice, card),
        weights: weights(dice),
        tolerances: tolerances(dice),
        meaning: if dice.one_in(18, 2) {
            Meaning::Surely
        } else {
            Meaning::Possibly
        },
    };
    Asked { card, query }
}
