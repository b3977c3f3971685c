// What the pairing program is asked: its input's bytes, read as a query.
#![tactic(auto)]

ghost use Rattle.std.specs.Prelude.{◌≡◌};
ghost use Rattle.program_input.specs.Given.{evenly, input_held};

use column::column_at;
use rules::{
    FieldTolerance, FieldWeight, Meaning, Query, Refusal, Tolerances, TrimTolerance, TrimWeight,
    Weights,
};
use tables::natural;

// A query of one weight for both tables, and no tolerance.
fn evenly(k: u32, block: u32, radius: u32, weight: u32) -> Query
    ensures { result ≡ evenly k block radius weight }
{
    let weights = Weights {
        field: FieldWeight(weight),
        trim: TrimWeight(weight),
    };
    let tolerances = Tolerances {
        field: FieldTolerance(0),
        trim: TrimTolerance(0),
    };
    Query {
        k,
        block,
        radius,
        weights,
        tolerances,
        meaning: Meaning::Possibly,
    }
}

// What standard input asks for, of weights 1 and 1; or the refusal.
#[tactic(auto, using(crate::proofs::Steps::read_steps))]
pub fn read_input(input: &[u8]) -> Result<Query, Refusal>
    ensures { result ≡ input_held input.now }
{
    if input.len() != rules::INPUT_LENGTH {
        return Err(Refusal::CutFile);
    }
    let k = column_at(input, 0, 6, false).ok_or(Refusal::BadColumn)?;
    let block = column_at(input, 6, 6, false).ok_or(Refusal::BadColumn)?;
    let radius = column_at(input, 12, 6, false).ok_or(Refusal::BadColumn)?;
    if input[18] != b'\n' {
        return Err(Refusal::BadColumn);
    }
    Ok(evenly(natural(k), natural(block), natural(radius), 1))
}
