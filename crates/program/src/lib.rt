// The pairing program's answer: from the bytes of its two files and its input to the bytes that it prints.
#![tactic(auto)]

ghost use Rattle.std.specs.Prelude.{◌≡◌, ◌++◌, ◌≤◌, length, drop};
ghost use Rattle.rules.specs.Tables.{table, kind_coordinates, HasRows, first_rows, field_table, trim_table};
ghost use Rattle.rules.specs.Numbers.{number_of};
ghost use Rattle.rules.specs.Calls.{open_code};
ghost use Rattle.rules.specs.Query.{refusal_line, listing, input_query, field_file_table, trim_file_table};
ghost use Rattle.rules.specs.Query.{whole_query_code, whole_query};
ghost use Rattle.other_lines.specs.Lines.{refusal_length};
ghost use Rattle.listing.specs.Shown.{listing_room};
ghost use Rattle.program.specs.Program.{Written, Gives, input_and_opening};

use rules::{FieldKind, Kinds, Query, Refusal, TrimKind};

// Room for what is printed: the longest listing.
pub const OUT_ROOM: usize = listing::ROOM;

// A refusal's line, at the front of `out`.
fn refuse(out: &mut [u8], refusal: Refusal) -> usize
    requires { refusal_length ≤ length out.old }
    ensures { Written (refusal_line (number_of refusal)) out.old out.new result }
{
    other_lines::put_refusal(out, 0, u32::from(refusal));
    other_lines::REFUSAL_LENGTH
}

// The listing, unless the opening is refused.
fn put_answer(
    out: &mut [u8],
    q: Query,
    kinds: Kinds,
    f: &[i32],
    t: &[i32],
) -> Result<usize, Refusal>
    requires { listing_room ≤ length out.old }
    ensures { Gives (open_code q (field_table kinds f.now) (trim_table kinds t.now))
        (listing q (field_table kinds f.now) (trim_table kinds t.now)) out.old out.new result }
{
    let run = run_query::run(q, kinds, f, t);
    run.opening?;
    Ok(listing::put_listing(out, run.session.rows.card, f, t, run))
}

// The same of the query that the input asks for.
fn put_asked(
    out: &mut [u8],
    input: &[u8],
    kinds: Kinds,
    f: &[i32],
    t: &[i32],
) -> Result<usize, Refusal>
    requires { listing_room ≤ length out.old }
    ensures { Gives (input_and_opening input.now (field_table kinds f.now) (trim_table kinds t.now))
        (listing (input_query input.now) (field_table kinds f.now) (trim_table kinds t.now)) out.old out.new result }
{
    let query = program_input::read_input(input)?;
    put_answer(out, query, kinds, f, t)
}

// The first m rows of a table of this kind.
fn rows_of<'a>(kind: u32, t: &'a [i32], m: u32) -> &'a [i32]
    requires { HasRows (table (kind_coordinates kind) t.now) m }
    ensures { result.now ≡ (first_rows m (table (kind_coordinates kind) t.now)).numbers }
{
    tables::first_rows(cards::kind_coordinates(kind), t, m as usize)
}

// The listing of what the two files and the input ask for, at the front of `out`: how many bytes it is; or the first
// refusal.
fn put_whole(out: &mut [u8], field: &[u8], trim: &[u8], input: &[u8]) -> Result<usize, Refusal>
    requires { listing_room ≤ length out.old }
    ensures { Gives (whole_query_code field.now trim.now input.now)
        (listing (input_query input.now) (field_file_table field.now) (trim_file_table trim.now)) out.old out.new
        result }
{
    let of_field = program_file::file_kind(1, 3, field);
    let mut f = [0i32; program_sizes::TABLE_ROOM];
    let m = program_file::load_table(field, of_field, &mut f)?;
    let of_trim = program_file::file_kind(2, 4, trim);
    let mut t = [0i32; program_sizes::TABLE_ROOM];
    let n = program_file::load_table(trim, of_trim, &mut t)?;
    let fields = rows_of(of_field, &f, m);
    let trims = rows_of(of_trim, &t, n);
    let kinds = Kinds {
        field: FieldKind(of_field),
        trim: TrimKind(of_trim),
    };
    put_asked(out, input, kinds, fields, trims)
}

// What the program prints, at the front of a place for the longest listing: how many bytes it is. The rest of the place
// stays as it was.
pub fn whole_query(field: &[u8], trim: &[u8], input: &[u8], out: &mut [u8; OUT_ROOM]) -> usize
    ensures upper_bound { (result ≤ listing_room)
        × (result ≡ length (whole_query field.now trim.now input.now)) }
    ensures out_after { out.new
        ≡ whole_query field.now trim.now input.now ++ drop result out.old }
{
    match put_whole(out, field, trim, input) {
        Ok(length) => length,
        Err(refusal) => refuse(out, refusal),
    }
}
