// The rows of a strict file, checked one after the other.
#![tactic(auto)]

ghost use Rattle.std.specs.Prelude.{◌≡◌, ◌≤◌, length};
ghost use Rattle.rules.specs.Tables.{most_rows};
ghost use Rattle.rules.specs.File.{row_start, file_table, rows_loaded};

use file_row::check_row;
use row_columns::row_bytes;
use rules::Unfit;

// The first `count` rows: their count, or what the first that is refused is refused by.
pub fn check_rows(n: u32, bytes: &[u8], count: usize) -> Result<u32, Unfit>
    requires { (2 ≤ n) × (count ≤ most_rows) × (row_start n count ≤ length bytes.now) }
    ensures { result ≡ rows_loaded bytes.now (file_table n bytes.now count) count }
{
    let size = row_bytes(n);
    let mut before = None;
    for i in 0..count {
        let row = (i + 1) as u32;
        match check_row(n, bytes, rules::HEADER_BYTES + size * i, before) {
            Ok(score) => before = Some(score),
            Err(refusal) => return Err(Unfit { refusal, row }),
        }
    }
    Ok(count as u32)
}
