// One whole query over two lent tables, its answer written as numbers, or as the listing's bytes.
#![tactic(auto)]

ghost use Rattle.std.specs.Prelude.{◌≡◌, Ok};
ghost use Rattle.rules.specs.Numbers.{code};
ghost use Rattle.record_layout.specs.Flat.{query_in};
ghost use Rattle.outcomes.specs.Outcomes.{query_outcome};
ghost use Rattle.outcomes.specs.declared.Outcome.{Outcome};
ghost use Rattle.whole_query.specs.Asked.{asked_field, asked_trim, asked_code, lent_query_answer, lent_query_numbers};
ghost use Rattle.whole_query.specs.Asked.{lent_listing_answer, lent_listing_bytes};

use outcomes::Outcome;
use rules::Refusal;

// A query run over two lent tables, its answer wanting `least` places of `room`; or what it is refused by.
fn ask(query: &[u32], f: &[i32], t: &[i32], least: usize, room: usize) -> Result<Outcome, Refusal>
    ensures code { code result
        ≡ asked_code least query.now (asked_field query.now f.now) (asked_trim query.now t.now) room }
    ensures ran { (r : Outcome) → result ≡ Ok r
        → r ≡ query_outcome (query_in query.now) (asked_field query.now f.now) (asked_trim query.now t.now) }
{
    let q = query_taken::query_in(query);
    let kinds = query_taken::kinds_in(query);
    let run = run_query::run(q, kinds, f, t);
    let there = record_layout::QUERY_SIZE <= query.len();
    outcomes::check_asked(there, run.opening, run.reading, least <= room)?;
    Ok(run)
}

// One whole query over two lent tables: how many pairs there are, or minus the refusal's number. Refused, no number of
// `out` changes.
pub fn whole(query: &[u32], f: &[i32], t: &[i32], out: &mut [u64]) -> i32
    ensures value { result ≡ lent_query_answer query.now f.now t.now out.old }
    ensures out_after { out.new
        ≡ lent_query_numbers query.now f.now t.now out.old }
{
    match ask(query, f, t, query_numbers::ROOM, out.len()) {
        Err(refusal) => answers::minus(u32::from(refusal)),
        Ok(found) => {
            query_numbers::put_numbers(out, found.session.rows.card, f, t, found);
            found.count as i32
        }
    }
}

// The same query, its listing written as bytes: how many, or minus the refusal's number. Refused, no byte changes.
pub fn listed(query: &[u32], f: &[i32], t: &[i32], out: &mut [u8]) -> i32
    ensures value { result ≡ lent_listing_answer query.now f.now t.now out.old }
    ensures out_after { out.new
        ≡ lent_listing_bytes query.now f.now t.now out.old }
{
    match ask(query, f, t, listing::ROOM, out.len()) {
        Err(refusal) => answers::minus(u32::from(refusal)),
        Ok(found) => listing::put_listing(out, found.session.rows.card, f, t, found) as i32,
    }
}
