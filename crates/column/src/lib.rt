// One column of a strict file, the rules' "A number is right-justified": its number, if it is formed so. And what is
// read of several, by whether they are.
#![tactic(auto)]

ghost use Rattle.std.specs.Prelude.{◌≡◌, true, ◌+◌, ◌≤◌, ◌<◌, length};
ghost use Rattle.rules.specs.File.{columns, column_fits, column_number};
ghost use Rattle.column.specs.Column.{column_held, formed};
ghost use Rattle.column.specs.Held.{least_of, signed_worth, held_of};

use column_scan::{Scan, scan_from};

// The least that so many digits are worth which write a number: 0 is one digit, others do not begin with 0. No scan is
// worth what stands for no digits.
const LEAST: [u32; 8] = [20000000, 0, 10, 100, 1000, 10000, 100000, 1000000];

fn least_of(digits: usize) -> u32
    requires { digits < 8 }
    ensures { result ≡ least_of digits }
{
    LEAST[digits]
}

// The number that a scan has met.
#[tactic(auto, unfolding(crate::specs::Held::signed_worth))]
fn signed_worth(s: Scan) -> i32
    requires { s.worth < 20000000 }
    ensures { result ≡ signed_worth s }
{
    if s.negative {
        return -(s.worth as i32);
    }
    s.worth as i32
}

// The number of a column by its scan; none where it is not formed as one. A minus never stands before 0.
#[tactic(auto, unfolding(crate::specs::Held::held_of))]
fn held(s: Scan) -> Option<i32>
    requires { (s.worth < 20000000) × (s.digits < 8) }
    ensures { result ≡ held_of s }
{
    let least = least_of(s.digits as usize);
    if !s.bad & ((least <= s.worth) & !(s.negative & (s.worth == 0))) {
        return Some(signed_worth(s));
    }
    None
}

// The number of a column of `width` bytes, the first of them at `at`; none where it is not formed as one.
pub fn column_at(bytes: &[u8], at: usize, width: usize, signed: bool) -> Option<i32>
    requires { (width ≤ 7) × (at + width ≤ length bytes.now) }
    ensures { result ≡ column_held signed (columns bytes.now at width) }
{
    held(scan_from(bytes, at, at + width, signed))
}

// What is read of columns: in Ok where they are formed as they must be, else in Err.
pub fn formed<T: Copy>(fits: bool, read: T) -> Result<T, T>
    ensures { result ≡ formed fits read }
{
    if fits {
        return Ok(read);
    }
    Err(read)
}

// The number of a column that fits.
pub fn number_at(bytes: &[u8], at: usize, width: usize, signed: bool) -> i32
    requires width_bound { (width ≤ 7) × (at + width ≤ length bytes.now) }
    requires width_value { column_fits signed (columns bytes.now at width) ≡ true }
    ensures { result ≡ column_number signed (columns bytes.now at width) }
{
    signed_worth(scan_from(bytes, at, at + width, signed))
}
