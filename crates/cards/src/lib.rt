// The two cards: how many coordinates a shade has, by the card, by a kind, and by the two tables' kinds.
#![tactic(auto)]

ghost use Rattle.std.specs.Prelude.{◌≡◌, [], ◌||◌, cond, eqb};
ghost use Rattle.rules.specs.Tables.{coordinates, kind_coordinates, field_table, trim_table};
ghost use Rattle.rules.specs.Calls.{is_card};

use rules::{Card, Kinds};

// The coordinates of a card. A `From` would be no plainer: a number made of a card need not be its coordinates.
pub fn coordinates(card: Card) -> u32
    ensures { result ≡ coordinates card }
{
    match card {
        Card::Old => 2,
        Card::New => 3,
    }
}

// Whether a card has n coordinates.
pub fn is_card(n: u32) -> bool
    ensures { result ≡ is_card n }
{
    (n == coordinates(Card::Old)) | (n == coordinates(Card::New))
}

// The coordinates of a kind's card; 0 where there is no such kind.
#[tactic(auto, unfolding(rules::specs::Tables::kind_coordinates))]
pub fn kind_coordinates(kind: u32) -> u32
    ensures { result ≡ kind_coordinates kind }
{
    match kind {
        1 | 2 => coordinates(Card::Old),
        3 | 4 => coordinates(Card::New),
        _ => 0,
    }
}

// The coordinates of a kind's card, if it is one of the two that are told; else 0.
fn coordinates_of(kind: u32, old: u32, new: u32) -> u32
    ensures { result ≡ cond (eqb kind old || eqb kind new) (kind_coordinates kind) 0 }
{
    if (kind == old) | (kind == new) {
        return kind_coordinates(kind);
    }
    0
}

// The coordinates of a field table of this kind, and of a trim table; 0 where it is not a kind of that table. Others
// call both: they stay, one line each.
pub fn field_coordinates(kinds: Kinds) -> u32
    ensures { result ≡ (field_table kinds []).coordinates }
{
    coordinates_of(kinds.field.0, 1, 3)
}

pub fn trim_coordinates(kinds: Kinds) -> u32
    ensures { result ≡ (trim_table kinds []).coordinates }
{
    coordinates_of(kinds.trim.0, 2, 4)
}
