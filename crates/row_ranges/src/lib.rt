// The ranges that 6 asks of a row's numbers: what the session and file reading share.
#![tactic(auto)]

ghost use Rattle.std.specs.Prelude.{◌≡◌, ◌&&◌, pos};
ghost use Rattle.rules.specs.Tables.{within, coordinate_fits, shade_fits};

// Whether coordinate k of a shade, from 0 on, keeps its range.
#[tactic(auto, unfolding(rules::specs::Tables::within, rules::specs::Tables::coordinate_fits))]
pub fn coordinate_fits(k: usize, x: i32) -> bool
    ensures { result ≡ coordinate_fits k x }
{
    if k < 2 {
        return (-12800 <= x) & (x <= 12700);
    }
    (0 <= x) & (x <= 10000)
}

// Whether each coordinate of a shade keeps its range. It looks at all of them: no branch stands in the loop.
pub fn shade_fits(shade: &[i32]) -> bool
    ensures { result ≡ shade_fits shade.now }
{
    let mut fits = true;
    for (k, x) in shade.iter().enumerate() {
        fits &= coordinate_fits(k, *x);
    }
    fits
}

// Whether the numbers of a row before its shade keep their ranges.
#[tactic(auto, unfolding(rules::specs::Tables::within))]
pub fn in_range(pattern: i32, score: i32) -> bool
    ensures { result ≡ (within (pos 1) (pos 999999) pattern && within (pos 0) (pos 9999) score) }
{
    ((1 <= pattern) & (pattern <= 999999)) & ((0 <= score) & (score <= 9999))
}
