// Numbers, and the end of a line, written as bytes into a lent slice, from a place on.
#![tactic(auto)]

ghost use Rattle.std.specs.Prelude.{◌≡◌, ◌+◌, ◌≤◌, ◌<◌, [], ◌∷◌, length};
ghost use Rattle.rules.specs.File.{line_feed};
ghost use Rattle.rules.specs.Query.{decimal};
ghost use Rattle.printing.specs.Put.{put_at};
ghost use Rattle.printing.specs.Numbers.{last_column};

// The last column of what is left of a number: its last digit, or a blank once all are written.
#[tactic(auto, unfolding(crate::specs::Numbers::last_column))]
fn last_column(more: bool, n: u64) -> u8
    ensures { result ≡ last_column more n }
{
    if more {
        return (48 + n % 10) as u8;
    }
    b' '
}

// A number right-justified in `width` columns, from its last digit on. By hand, since it is cut to its columns:
// `write!` pads, and never cuts.
pub fn put_number(out: &mut [u8], at: usize, width: usize, n: u64)
    requires { at + width ≤ length out.old }
    ensures { out.new ≡ put_at at (decimal width n) out.old }
{
    let mut more = true;
    let mut rest = n;
    for w in (0..width).rev() {
        out[at + w] = last_column(more, rest);
        more &= !(rest < 10);
        rest /= 10;
    }
}

// The end of a line.
#[tactic(auto, using(crate::specs::Put::put_one))]
pub fn put_feed(out: &mut [u8], at: usize)
    requires { at < length out.old }
    ensures { out.new ≡ put_at at (line_feed ∷ []) out.old }
{
    out[at] = b'\n';
}
