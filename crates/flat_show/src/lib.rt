// Show, of a session whose record is laid out flat in a lent slice: as three numbers.
#![tactic(auto)]

ghost use Rattle.std.specs.Prelude.{◌≡◌, ◌≤◌, ◌<◌, length};
ghost use Rattle.rules.specs.Tables.{most_rows};
ghost use Rattle.rules.specs.Session.{lent_table};
ghost use Rattle.record_layout.specs.Flat.{pair_size, laid_at};
ghost use Rattle.flat_calls.specs.Calls.{block_numbers, shown_numbers, show_number, show_writes};

use record_layout::{PAIR_SIZE, SIZE};
use rules::Session;

// A table's number, the first row of the last block down to a depth, and the rows of that block.
fn put_block(table: u32, block: u32, depth: u32, place: &mut [u32])
    requires { (0 < block) × (0 < depth) × (depth ≤ most_rows) × (pair_size ≤ length place.old) }
    ensures { place.new ≡ laid_at 0 (block_numbers table block depth) place.old }
{
    let a = (depth - 1) / block * block;
    record_layout::put_three(place, 0, table, a + 1, depth - a);
}

// Where the rows last read stand; zeros where nothing was read or the call is refused by 5 or 4.
fn put_shown(f: &[i32], t: &[i32], s: Session, place: &mut [u32])
    requires { pair_size ≤ length place.old }
    ensures { place.new
        ≡ laid_at 0 (shown_numbers (lent_table s f.now) (lent_table s t.now) s)
        place.old }
{
    if checks::check_lent(pair_checks::fits(&s), s.rows, f, t).is_err() {
        record_layout::put_three(place, 0, 0, 0, 0);
        return;
    }
    match s.last {
        1 => put_block(1, s.query.block, s.depth.field.0, place),
        2 => put_block(2, s.query.block, s.depth.trim.0, place),
        _ => record_layout::put_three(place, 0, 0, 0, 0),
    }
}

// Show: which table the rows last read came from, the first of them and how many, written into `place`.
pub fn show(f: &[i32], t: &[i32], lent: &[u32], place: &mut [u32]) -> i32
    ensures value { result ≡ show_number f.now t.now lent.now place.old }
    ensures place_after { place.new
        ≡ show_writes f.now t.now lent.now place.old }
{
    if (lent.len() < SIZE) | (place.len() < PAIR_SIZE) {
        return answers::short();
    }
    let s = record_taken::unpack(lent);
    put_shown(f, t, s, place);
    0
}
