// The block join: the qualifying pairs of a field block and a trim block, each a part of its table, are put among the
// pairs held. Both tables' shades have n coordinates.
#![tactic(auto)]

ghost use Rattle.std.specs.Prelude.{◌≡◌, false, true, ◌≤◌, length};
ghost use Rattle.rules.specs.Tables.{table, terms, row, withdrawn, HasRow};
ghost use Rattle.rules.specs.Calls.{is_card};
ghost use Rattle.session_laws.specs.Record.{QueryFits};
ghost use Rattle.near_rows.specs.Live.{Live};
ghost use Rattle.block_rows.specs.Parts.{at};
ghost use Rattle.block.specs.Block.{RowsPassed, Joined, RowJoined};

use block_rows::{live_rows, pair_at};
use keys::Keys;
use near_rows::next_near;
use rules::Query;

// Row i + 1 of x, a live row, with y, of which the first m are live: from one near pair to the next. Where the room is
// used up and a pair would fall off, so would all others of the row, whose scores are no higher.
fn join_row(
    n: u32,
    q: Query,
    room: usize,
    x: &[i32],
    a: usize,
    i: usize,
    y: &[i32],
    c: usize,
    m: usize,
    keys: &mut Keys,
)
    requires held_le_room { (length keys.old ≤ room) × (room ≤ 64) }
    requires query_fits { QueryFits q × (is_card n ≡ true) × RowsPassed a (table n x.now)
        × RowsPassed c (table n y.now) }
    requires live { HasRow (table n x.now) i × (withdrawn (row (table n x.now) i) ≡ false) × Live (table n y.now) m }
    ensures { RowJoined (terms q) room (at a (table n x.now)) (at c (table n y.now)) i keys.old keys.new }
{
    let mut j = 0;
    // from one near pair to the next: no place is counted
    while j < m {
        let k = next_near(n, q, x, i, y, m, j);
        if k == m {
            return;
        }
        let p = pair_at(n, q, x, a, i, y, c, k);
        if keys.falls_off(room, p) {
            return;
        }
        keys.put(room, p);
        j = k + 1;
    }
}

// The block join: of the pairs held and the qualifying pairs of x and y the best-ranked, at most room.
pub fn join(
    n: u32,
    q: Query,
    room: usize,
    x: &[i32],
    a: usize,
    y: &[i32],
    c: usize,
    keys: &mut Keys,
)
    requires held_le_room { (length keys.old ≤ room) × (room ≤ 64) }
    requires query_fits { QueryFits q × (is_card n ≡ true) × RowsPassed a (table n x.now)
        × RowsPassed c (table n y.now) }
    ensures { Joined (terms q) room (at a (table n x.now)) (at c (table n y.now)) keys.old keys.new }
{
    let l = live_rows(n, x);
    let m = live_rows(n, y);
    for i in 0..l {
        join_row(n, q, room, x, a, i, y, c, m, keys);
    }
}
