// The root of a number and what is left of it, for every u64. The method is P. Zimmermann's (Karatsuba Square Root,
// 1999): the root of the top eight bits is tried out, and each step doubles the bits of the root by one division.
#![tactic(auto)]

ghost use Rattle.std.specs.Prelude.{◌≡◌, ◌+◌, ◌*◌, ◌-◌, ◌≤◌, ◌<◌, ◌^◌};
ghost use Rattle.rules.specs.Root.{root, remainder};
ghost use Rattle.root.specs.Parts.{IsRoot, Parted, StepReady};

// The greatest whole number whose square is not above n, and what is left of n without that square.
#[derive(Clone, Copy)]
pub struct Root {
    pub root: u64,
    pub rest: u64,
}

// The root s of n, with the rest.
fn with_rest(n: u64, s: u64) -> Root
    requires { IsRoot n s }
    ensures { Parted n result.root result.rest }
{
    Root {
        root: s,
        rest: n - s * s,
    }
}

// s + by if its square is not above m, else s. The root of m was known to within twice `by`, and now is to within `by`.
fn raised(s: u64, by: u64, m: u64) -> u64
    requires { (s ≤ 16) × (by ≤ 8) × (s * s ≤ m) × (m < (s + 2 * by) * (s + 2 * by)) }
    ensures { (result ≤ s + by) × (result * result ≤ m) × (m < (result + by) * (result + by)) }
{
    if (s + by) * (s + by) <= m {
        return s + by;
    }
    s
}

// Zimmermann's step: from the root and the rest of a number to those of that number with two more digits of base b,
// which make `next`. The root gets one digit more. The rest, divided by twice the old root, gives that digit, or one
// more than it: then the digit's square is more than what is left.
#[tactic(auto, using(crate::specs::Step::step_laws))]
fn grow(x: Root, next: u64, b: u64) -> Root
    requires { StepReady x.root x.rest next b }
    ensures { Parted ((x.root * x.root + x.rest) * (b * b) + next) result.root result.rest }
{
    let dividend = x.rest * b + next / b;
    let twice = 2 * x.root;
    let digit = dividend / twice;
    let left = dividend % twice * b + next % b;
    let guess = x.root * b + digit;
    let square = digit * digit;
    if square <= left {
        return Root {
            root: guess,
            rest: left - square,
        };
    }
    Root {
        root: guess - 1,
        rest: left + 2 * guess - 1 - square,
    }
}

// The root of a number of 8 bits by trial, where it is s to s + 7.
fn tried(s: u64, m: u64) -> Root
    requires { (s ≤ 8) × (s * s ≤ m) × (m < (s + 8) * (s + 8)) }
    ensures { Parted m result.root result.rest }
{
    with_rest(m, raised(raised(raised(s, 4, m), 2, m), 1, m))
}

// The root of a number of 8 bits, of 16, of 32 and of 64, the top two of them not both 0. One function each: with their
// constants written out the compiler shifts where one function of the number of bits would divide.
fn root_8(m: u64) -> Root
    requires { (2 ^ 6 ≤ m) × (m < 2 ^ 8) }
    ensures { Parted m result.root result.rest }
{
    tried(8, m)
}

#[tactic(auto, using(crate::specs::Step::ready))]
fn root_16(m: u64) -> Root
    requires { (2 ^ 14 ≤ m) × (m < 2 ^ 16) }
    ensures { Parted m result.root result.rest }
{
    grow(root_8(m >> 8), m % 256, 16)
}

#[tactic(auto, using(crate::specs::Step::ready))]
fn root_32(m: u64) -> Root
    requires { (2 ^ 30 ≤ m) × (m < 2 ^ 32) }
    ensures { Parted m result.root result.rest }
{
    grow(root_16(m >> 16), m % 65536, 256)
}

#[tactic(auto, using(crate::specs::Step::ready))]
fn root_64(m: u64) -> Root
    requires { 2 ^ 62 ≤ m }
    ensures { Parted m result.root result.rest }
{
    grow(root_32(m >> 32), m % 4294967296, 65536)
}

// A number moved up by twice as many bits as `by` says, so that its root is moved up by that many.
#[derive(Clone, Copy)]
struct Moved {
    number: u64,
    by: u32,
}

// n moved up until the top two of its bits, the unused ones not counted, are not both 0.
#[tactic(auto, using(crate::proofs::Shift::shift_laws))]
fn moved_up(n: u64, unused: u32) -> Moved
    requires { (0 < n) × (unused ≤ 62) × (n < 2 ^ (64 - unused)) }
    ensures number_value { (result.number ≡ n * (2 ^ result.by * 2 ^ result.by)) × (result.by < 32) }
    ensures unused_bound { (2 ^ (62 - unused) ≤ result.number) × (result.number < 2 ^ (64 - unused)) }
{
    let by = (n.leading_zeros() - unused) / 2;
    let number = n << (2 * by);
    Moved { number, by }
}

// The root of n, from the root of n moved up.
fn moved_back(n: u64, x: Root, by: u32) -> Root
    requires { Parted (n * (2 ^ by * 2 ^ by)) x.root x.rest × (by < 32) }
    ensures { Parted n result.root result.rest }
{
    with_rest(n, x.root >> by)
}

// The root and the rest of n, for every n. Numbers of fewer bits take fewer steps.
pub fn root_of(n: u64) -> Root
    ensures root_bound { (result.root * result.root ≤ n) × (n < (result.root + 1) * (result.root + 1))
        × (result.rest ≡ n - result.root * result.root) }
    ensures root_value { (result.root ≡ root n) × (result.rest ≡ remainder n) }
{
    if n < 256 {
        return tried(raised(0, 8, n), n);
    }
    if n < 65536 {
        let up = moved_up(n, 48);
        return moved_back(n, root_16(up.number), up.by);
    }
    if n < 4294967296 {
        let up = moved_up(n, 32);
        return moved_back(n, root_32(up.number), up.by);
    }
    let up = moved_up(n, 0);
    moved_back(n, root_64(up.number), up.by)
}
