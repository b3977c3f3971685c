// How the columns of a strict file's row stand, by their numbers from 0 on: how many bytes each has, and the row; the
// number in one.
#![tactic(auto)]

ghost use Rattle.std.specs.Prelude.{◌≡◌, true, ◌+◌, ◌≤◌, length};
ghost use Rattle.rules.specs.File.{columns, column_fits, column_number, is_signed, column_bytes, row_bytes};

use column::number_at;

// Whether column j of a row may have a minus: a and b.
pub fn is_signed(j: usize) -> bool
    ensures { result ≡ is_signed j }
{
    (2 <= j) & (j <= 3)
}

// How many bytes it has.
pub fn column_bytes(j: usize) -> usize
    ensures { result ≡ column_bytes j }
{
    if is_signed(j) {
        return 7;
    }
    6
}

// How many bytes a row has whose shade has n coordinates: its columns, and LF.
#[tactic(auto, using(file_laws::specs::Columns::start_most), unfolding(rules::specs::File::column_start))]
pub fn row_bytes(n: u32) -> usize
    ensures { result ≡ row_bytes n }
{
    let mut end: usize = 0;
    for j in 0..tables::width(n) {
        end += column_bytes(j);
    }
    end + 1
}

// The number of column j of a row, which fits, its first byte at `at`.
pub fn row_number(bytes: &[u8], at: usize, j: usize) -> i32
    requires j_in_bounds { at + column_bytes j ≤ length bytes.now }
    requires j_value { column_fits (is_signed j) (columns bytes.now at (column_bytes j)) ≡ true }
    ensures { result ≡ column_number (is_signed j) (columns bytes.now at (column_bytes j)) }
{
    if is_signed(j) {
        return number_at(bytes, at, 7, true);
    }
    number_at(bytes, at, 6, false)
}
