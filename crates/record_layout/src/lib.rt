// How the session's record is laid out flat in a lent slice of numbers, for callers in C and Rust; a pair laid out so.
#![tactic(auto)]

ghost use Rattle.std.specs.Prelude.{◌≡◌, [], ◌∷◌, ◌+◌, ◌≤◌, length};
ghost use Rattle.record_layout.specs.Flat.{pair_size, laid_at, flat_pair};

use rules::{PLACES, Pair};

// Where a record's numbers stand: first three of the query's.
pub const K: usize = 0;

pub const BLOCK_ROWS: usize = 1;

pub const RADIUS: usize = 2;

pub const FIELD_ROWS: usize = 3;

pub const TRIM_ROWS: usize = 4;

pub const FIELD_DEPTH: usize = 5;

pub const TRIM_DEPTH: usize = 6;

pub const LAST: usize = 7;

pub const OUT: usize = 8;

pub const HELD: usize = 9;

// Block pairs joined: its low 32 bits, and the rest.
pub const JOINED: usize = 10;

pub const JOINED_HIGH: usize = 11;

// The pair places.
pub const PAIRS: usize = 12;

// Behind them the query's two weights.
pub const FIELD_WEIGHT: usize = PAIRS + PAIR_SIZE * PLACES;

pub const TRIM_WEIGHT: usize = FIELD_WEIGHT + 1;

// Then the tables' card, by the number of its coordinates.
pub const CARD: usize = TRIM_WEIGHT + 1;

// And last the query's two tolerances, and its meaning: 0 possibly, 1 surely.
pub const FIELD_TOLERANCE: usize = CARD + 1;

pub const TRIM_TOLERANCE: usize = FIELD_TOLERANCE + 1;

pub const MEANING: usize = TRIM_TOLERANCE + 1;

// How many numbers a lent query is at least, a pair is, and a record.
pub const QUERY_SIZE: usize = 3;

pub const PAIR_SIZE: usize = 3;

pub const SIZE: usize = MEANING + 1;

// The first number above 32 bits.
pub const WORD: u64 = 4294967296;

// Three numbers from place o on.
pub fn put_three(out: &mut [u32], o: usize, a: u32, b: u32, c: u32)
    requires { o + 3 ≤ length out.old }
    ensures { out.new ≡ laid_at o (a ∷ b ∷ c ∷ []) out.old }
{
    out[o..o + 3].copy_from_slice(&[a, b, c]);
}

// A pair from place o on: sum, field row, trim row.
#[tactic(auto, unfolding(crate::specs::Flat::flat_pair))]
pub fn put_pair(out: &mut [u32], o: usize, p: Pair)
    requires { o + pair_size ≤ length out.old }
    ensures { out.new ≡ laid_at o (flat_pair p) out.old }
{
    put_three(out, o, p.sum, p.field, p.trim);
}
