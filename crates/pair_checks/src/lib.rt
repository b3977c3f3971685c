// Grounds of 5 that look at a record's pair places, and whether a record is refused by 5 (any record may come in).
#![tactic(auto)]

ghost use Rattle.std.specs.Prelude.{◌≡◌};
ghost use Rattle.rules.specs.Calls.{record_fits};
ghost use Rattle.pair_checks.specs.Grounds.{Shallow, pair_within, place_key, pairs_fit};

use number_checks::numbers_fit;
use rules::{Counts, PLACES, Pair, Session};

// A held pair's rows, of the two depths, and its sum.
#[tactic(auto, unfolding(crate::specs::Grounds::pair_within))]
fn pair_fits(depth: Counts, p: Pair) -> bool
    ensures { result ≡ pair_within depth p }
{
    let field = depth.field.0;
    let trim = depth.trim.0;
    ((1 <= p.field) & (p.field <= field))
        & (((1 <= p.trim) & (p.trim <= trim)) & (p.sum <= rules::MOST_SUM))
}

// Pair place i, `before` being the key before it: the key of one of the n held, which fits and stands behind that one;
// 1 for zeros beyond them; none where the place does not fit.
pub fn place_key(i: usize, n: usize, depth: Counts, before: u64, p: Pair) -> Option<u64>
    requires { Shallow depth }
    ensures { result ≡ place_key i n depth before p }
{
    if n <= i {
        return if p == rules::NO_PAIR { Some(1) } else { None };
    }
    if !pair_fits(depth, p) {
        return None;
    }
    let key = keys::key(p);
    if key <= before {
        return None;
    }
    Some(key)
}

// The pair places: those held fit, each ranked behind the one before it, and beyond them there are none.
pub fn pairs_fit(pairs: &[Pair; PLACES], held: usize, depth: Counts) -> bool
    requires { Shallow depth }
    ensures { result ≡ pairs_fit pairs.now held depth }
{
    let mut before = 0;
    for (i, p) in pairs.iter().enumerate() {
        let Some(key) = place_key(i, held, depth, before, *p) else {
            return false;
        };
        before = key;
    }
    true
}

// Whether the record is not refused by 5: the numbers, then place after place.
pub fn fits(s: &Session) -> bool
    ensures { result ≡ record_fits s.now }
{
    numbers_fit(s.query, s.rows, s.depth, s.last, s.out, s.held, s.joined)
        && pairs_fit(&s.pairs, s.held as usize, s.depth)
}
