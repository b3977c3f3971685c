// A strict file read: its rows into lent numbers.
#![tactic(auto)]

ghost use Rattle.std.specs.Prelude.{◌≡◌, ◌++◌, ◌+◌, ◌≤◌, length};
ghost use Rattle.rules.specs.Tables.{table, width, HasRows, after_rows, most_rows};
ghost use Rattle.rules.specs.File.{row_bytes, row_start, file_table, and_slice, load_answer, load_numbers};
ghost use Rattle.file_laws.specs.Parts.{RowBytesFit};
ghost use Rattle.file.specs.Put.{row_put, RowsFit};

use file_check::check;
use row_columns::{column_bytes, row_bytes, row_number};
use rules::{Refusal, Unfit};

// 11 comes last: a file that is refused for its rows is told so, however short the slice of `room` numbers. The rows
// have n coordinates.
#[tactic(auto, unfolding(rules::specs::File::and_slice))]
fn and_room(n: u32, checked: Result<u32, Unfit>, room: usize) -> Result<u32, Unfit>
    ensures { result ≡ and_slice n room checked }
{
    let count = checked?;
    if room < tables::width(n) * count as usize {
        return Err(Unfit {
            refusal: Refusal::ShortSlice,
            row: 0,
        });
    }
    Ok(count)
}

fn put_row_at(n: u32, bytes: &[u8], o: usize, out: &mut [i32], p: usize)
    requires n_in_bounds { (o + row_bytes n ≤ length bytes.now) × (p + width n ≤ length out.old) }
    requires row_bytes_fit { RowBytesFit n bytes.now o }
    ensures { out.new ≡ row_put n bytes.now o p out.old }
{
    let mut at = o;
    for j in 0..tables::width(n) {
        out[p + j] = row_number(bytes, at, j);
        at += column_bytes(j);
    }
}

// The row of n coordinates that begins at `o`, which fits, written from place `p` on. What stands around it stays. The
// code is chosen by n, so that the compiler knows the columns.
fn put_row(n: u32, bytes: &[u8], o: usize, out: &mut [i32], p: usize)
    requires n_in_bounds { (o + row_bytes n ≤ length bytes.now) × (p + width n ≤ length out.old) }
    requires row_bytes_fit { RowBytesFit n bytes.now o }
    ensures { out.new ≡ row_put n bytes.now o p out.old }
{
    match n {
        2 => put_row_at(2, bytes, o, out, p),
        3 => put_row_at(3, bytes, o, out, p),
        _ => put_row_at(n, bytes, o, out, p),
    }
}

// The first `count` rows, which fit, written from the front of `out`.
fn put_rows(n: u32, bytes: &[u8], count: usize, out: &mut [i32])
    requires count_le_most_rows { (count ≤ most_rows) × (row_start n count ≤ length bytes.now)
        × HasRows (table n out.old) count }
    requires rows_fit { RowsFit n bytes.now count }
    ensures { out.new
        ≡ (file_table n bytes.now count).numbers ++ (after_rows count (table n out.old)).numbers }
{
    let size = row_bytes(n);
    let width = tables::width(n);
    for i in 0..count {
        put_row(n, bytes, rules::HEADER_BYTES + size * i, out, width * i);
    }
}

// A file's rows read into the front of `out`. A refused file changes no number of it.
pub fn load(bytes: &[u8], kind: i32, out: &mut [i32]) -> Result<u32, Unfit>
    ensures value { result ≡ load_answer bytes.now kind out.old }
    ensures out_after { out.new ≡ load_numbers bytes.now kind out.old }
{
    let n = file_header::kind_coordinates(kind);
    let count = and_room(n, check(bytes, kind), out.len())?;
    put_rows(n, bytes, count as usize, out);
    Ok(count)
}
