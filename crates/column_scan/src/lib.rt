// The bytes of one column of a strict file, gone through one after the other: what is known of them at the end.
#![tactic(auto)]

ghost use Rattle.std.specs.Prelude.{◌≡◌, ◌+◌, ◌≤◌, ◌<◌, length};
ghost use Rattle.file_laws.specs.Places.{place_value_at};
ghost use Rattle.column_scan.specs.Scan.{up_to, byte_worth, stepped, start, scanned};

// What is known of a column's bytes up to a place.
#[derive(Clone, Copy)]
pub struct Scan {
    // The last byte is no blank.
    pub seen: bool,
    // How many of them are digits.
    pub digits: u32,
    // A minus is among them.
    pub negative: bool,
    // One of them stands where it must not.
    pub bad: bool,
    // What their digits are worth.
    pub worth: u32,
}

// The place values: what a digit is worth with so many digits behind it.
const PLACES: [u32; 7] = [1, 10, 100, 1000, 10000, 100000, 1000000];

fn place_value(i: usize) -> u32
    requires { i < 7 }
    ensures { result ≡ place_value_at i }
{
    PLACES[i]
}

// What a byte is worth as a digit: a blank and a minus nothing.
#[tactic(auto, unfolding(crate::specs::Scan::byte_worth))]
fn byte_worth(byte: u8, minus: bool) -> u32
    ensures { result ≡ byte_worth minus byte }
{
    if minus {
        return 0;
    }
    u32::from(byte % 16)
}

// One byte more, of this place value.
#[tactic(auto, using(crate::proofs::Bytes::worth_most), unfolding(crate::specs::Scan::stepped))]
fn step(s: Scan, byte: u8, signed: bool, place: u32) -> Scan
    requires { (s.worth < 20000000) × (s.digits < 7) × (place ≤ 1000000) }
    ensures { result ≡ stepped signed place s byte }
{
    let blank = byte == b' ';
    let minus = signed & (byte == b'-');
    let digit = (b'0' <= byte) & (byte <= b'9');
    let astray = !digit & (s.seen | !(blank | minus));
    Scan {
        seen: !blank,
        digits: s.digits + u32::from(digit),
        negative: s.negative | minus,
        bad: s.bad | astray,
        worth: s.worth + place * byte_worth(byte, minus),
    }
}

// All bytes from `at` up to `end`.
pub fn scan_from(bytes: &[u8], at: usize, end: usize, signed: bool) -> Scan
    requires { (at ≤ end) × (end ≤ at + 7) × (end ≤ length bytes.now) }
    ensures value { result ≡ scanned signed start (up_to bytes.now at end) }
    ensures worth_bound { (result.worth < 20000000) × (result.digits < 8) }
{
    let mut s = Scan {
        seen: false,
        digits: 0,
        negative: false,
        bad: false,
        worth: 0,
    };
    for i in at..end {
        let place = place_value(end - 1 - i);
        s = step(s, bytes[i], signed, place);
    }
    s
}
