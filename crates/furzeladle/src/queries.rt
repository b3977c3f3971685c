// One whole query over two lent tables of up to 65,535 rows.
ghost use Rattle.std.specs.Prelude.{◌≡◌};
ghost use Rattle.whole_query.specs.Asked.{lent_query_answer, lent_query_numbers, lent_listing_answer};
ghost use Rattle.whole_query.specs.Asked.{lent_listing_bytes};

// `query` holds k, block and radius; then, if they are lent, the two weights, the two kinds, the two tolerances and the
// meaning, 0 possibly and any other number surely. From the front `out` gets the field rows read, the trim rows read,
// the block pairs joined, then six numbers a pair: sum, field row, trim row, their pattern numbers, squared distance.
// Who lends 515 or more gets from number 387 on two numbers a pair, the root of the squared distance and the remainder.
// The answer is how many pairs there are, or minus the refusal's number; refused, no number of `out` changes. Fewer
// than 3 numbers of a query is 11, before anything else; fewer than 387 lent is 11, after all other refusals.
#[unsafe(no_mangle)]
pub extern "C" fn furzeladle_query(query: &[u32], f: &[i32], t: &[i32], out: &mut [u64]) -> i32
    ensures value { result ≡ lent_query_answer query.now f.now t.now out.old }
    ensures out_after { out.new
        ≡ lent_query_numbers query.now f.now t.now out.old }
{
    whole_query::whole(query, f, t, out)
}

// The same query, its listing as bytes at the front of `out`: how many, or minus the refusal's number; refused, no byte
// of `out` changes. Fewer than 3 numbers of a query is 11, before anything else; fewer than 2,668 bytes lent is 11,
// after all other refusals.
#[unsafe(no_mangle)]
pub extern "C" fn furzeladle_listing(query: &[u32], f: &[i32], t: &[i32], out: &mut [u8]) -> i32
    ensures value { result ≡ lent_listing_answer query.now f.now t.now out.old }
    ensures out_after { out.new
        ≡ lent_listing_bytes query.now f.now t.now out.old }
{
    whole_query::listed(query, f, t, out)
}
