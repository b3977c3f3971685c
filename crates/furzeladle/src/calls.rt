// The join session for callers in C and Rust: the rules' calls over a record laid out flat in a lent slice.
ghost use Rattle.std.specs.Prelude.{◌≡◌};
ghost use Rattle.flat_calls.specs.Calls.{open_number, open_leaves, read_number, read_leaves};
ghost use Rattle.flat_calls.specs.Calls.{take_number, take_leaves, take_writes, show_number, show_writes};

// Opening: the query's numbers in; a record out, where the opening is accepted.
#[unsafe(no_mangle)]
pub extern "C" fn furzeladle_open(query: &[u32], f: &[i32], t: &[i32], lent: &mut [u32]) -> i32
    ensures value { result ≡ open_number query.now f.now t.now lent.old }
    ensures lent_after { lent.new
        ≡ open_leaves query.now f.now t.now lent.old }
{
    flat_open::start(query, f, t, lent)
}

// Read: where a block was read, the record after it comes back in the slice. Else it stands as it was.
#[unsafe(no_mangle)]
pub extern "C" fn furzeladle_read(f: &[i32], t: &[i32], lent: &mut [u32]) -> i32
    ensures value { result ≡ read_number f.now t.now lent.old }
    ensures lent_after { lent.new ≡ read_leaves f.now t.now lent.old }
{
    flat_read::read(f, t, lent)
}

// Take: as read, and a pair brought out is written into `pair`.
#[unsafe(no_mangle)]
pub extern "C" fn furzeladle_take(f: &[i32], t: &[i32], lent: &mut [u32], pair: &mut [u32]) -> i32
    ensures value { result ≡ take_number f.now t.now lent.old pair.old }
    ensures lent_after { lent.new
        ≡ take_leaves f.now t.now lent.old pair.old }
    ensures pair_after { pair.new
        ≡ take_writes f.now t.now lent.old pair.old }
{
    flat_take::take(f, t, lent, pair)
}

// Show: which table the rows last read came from, the first of them and how many, written into `place`.
#[unsafe(no_mangle)]
pub extern "C" fn furzeladle_show(f: &[i32], t: &[i32], lent: &[u32], place: &mut [u32]) -> i32
    ensures value { result ≡ show_number f.now t.now lent.now place.old }
    ensures place_after { place.new
        ≡ show_writes f.now t.now lent.now place.old }
{
    flat_show::show(f, t, lent, place)
}
