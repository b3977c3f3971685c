// The distance of two shades, lists of their coordinates of one length, for all 32-bit numbers: no sum wraps, whatever
// a table holds. At the end whether two small shades, as legal rows have them, count as within a radius, at 32 bits.
#![tactic(auto)]

ghost use Rattle.std.specs.Prelude.{◌≡◌, false, ◌+◌, ◌*◌, ◌<◌, ◌≤◌, ◌^◌, ◌-◌, min, leb, pos, length};
ghost use Rattle.std.specs.Int.Signed.{mag};
ghost use Rattle.rules.specs.Tables.{gap, squares, squared_distance};
ghost use Rattle.rules.specs.Squares.{square_at};
ghost use Rattle.tolerances.specs.Counted.{counted, Beyond};
ghost use Rattle.distance.specs.Small.{Small};

// How far apart two shades lie in coordinate k, from 0 on, squared.
#[tactic(auto, unfolding(rules::specs::Squares::square_at, rules::specs::Tables::gap))]
fn square_at(x: &[i32], y: &[i32], k: usize) -> u64
    requires { (k < length x.now) × (k < length y.now) }
    ensures { result ≡ square_at gap (pos 0) x.now y.now k }
{
    let gap = u64::from(x[k].abs_diff(y[k]));
    gap * gap
}

// The squared distance of two shades; of two that lie farther apart than 64 bits can say, the largest number they can.
#[tactic(auto, using(crate::proofs::Square::next_square), unfolding(rules::specs::Tables::squares))]
pub fn squared_distance(x: &[i32], y: &[i32]) -> u64
    requires { length x.now ≡ length y.now }
    ensures { result ≡ min (squared_distance x.now y.now) (2 ^ 64 - 1) }
{
    let mut sum: u64 = 0;
    for k in 0..x.len() {
        sum = sum.saturating_add(square_at(x, y, k));
    }
    sum
}

// How far apart two numbers count as, a small gap raised and then lowered, not below 0.
fn counted(more: u32, less: u32, gap: u32) -> u32
    requires { (more ≤ 1000) × (gap < 32768) }
    ensures { (result ≡ gap + more - less) × (result < 33768) }
{
    (gap + more).saturating_sub(less)
}

// How far apart two small shades count as in coordinate k, squared.
fn small_square_at(more: u32, less: u32, x: &[i32], y: &[i32], k: usize) -> u32
    requires { (k < length x.now) × (k < length y.now) × Small x.now × Small y.now × (more ≤ 1000) }
    ensures { (result ≡ square_at (counted more less) (pos 0) x.now y.now k)
        × (result ≤ 1140210289) }
{
    let gap = counted(more, less, x[k].abs_diff(y[k]));
    gap * gap
}

// Whether two small shades count as within the radius: 32 bits hold the squares of three coordinates, and no branch
// stands in the loop.
#[tactic(auto, using(crate::proofs::Square::next_square), unfolding(rules::specs::Tables::squares))]
pub fn near_small(radius: u32, more: u32, less: u32, x: &[i32], y: &[i32]) -> bool
    requires small { Small x.now × Small y.now × (more ≤ 1000) }
    requires x_len { (length x.now ≡ length y.now) × (length x.now ≤ 3) × (radius ≤ 43000) }
    ensures { result ≡ leb (squares (counted more less) x.now y.now) (radius * radius) }
{
    let mut sum: u32 = 0;
    for k in 0..x.len() {
        sum += small_square_at(more, less, x, y, k);
    }
    sum <= radius * radius
}

// Whether two small numbers lie no farther apart than this.
fn no_farther(reach: u32, x: i32, y: i32) -> bool
    requires { (mag x < 16384) × (mag y < 16384) × (reach ≤ 41000) }
    ensures { result ≡ leb (gap x y) reach }
{
    let r = reach as i32;
    (x - r <= y) & (y <= x + r)
}

// Whether two small shades lie beside each other, no farther apart than this in any coordinate. No number is multiplied
// and no branch stands in the loop, so many are tested at once.
pub fn beside(reach: u32, x: &[i32], y: &[i32]) -> bool
    requires small { Small x.now × Small y.now }
    requires x_len { (length x.now ≡ length y.now) × (reach ≤ 41000) }
    ensures { result ≡ false → Beyond reach x.now y.now }
{
    let mut all = true;
    for k in 0..x.len() {
        all &= no_farther(reach, x[k], y[k]);
    }
    all
}
