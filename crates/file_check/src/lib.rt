// A strict file checked: its header, then its rows.
#![tactic(auto)]

ghost use Rattle.std.specs.Prelude.{◌≡◌};
ghost use Rattle.rules.specs.File.{check_file};

use file_header::{check_header, kind_coordinates};
use file_rows::check_rows;
use rules::Unfit;

// A file checked alone: the row count, or the refusal and its row. The header comes before the rows.
pub fn check(bytes: &[u8], kind: i32) -> Result<u32, Unfit>
    ensures { result ≡ check_file bytes.now kind }
{
    match check_header(bytes, kind) {
        Ok(count) => check_rows(kind_coordinates(kind), bytes, count as usize),
        Err(refusal) => Err(Unfit { refusal, row: 0 }),
    }
}
