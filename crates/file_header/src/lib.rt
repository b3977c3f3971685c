// The header of a strict file: its numbers, read, and what a file is refused by for it.
#![tactic(auto)]

ghost use Rattle.std.specs.Prelude.{◌≡◌, ℕ, length};
ghost use Rattle.rules.specs.Numbers.{code};
ghost use Rattle.rules.specs.File.{file_count, wanted, head_code};
ghost use Rattle.file_header.specs.Held.{header_held, header_code};

use codes::unless;
use column::{column_at, formed};
use row_columns::row_bytes;
use rules::Refusal;
use tables::natural;

// What is read of the header, 0 being the number of a column that is not formed as it must be.
#[derive(Clone, Copy)]
pub struct Header {
    pub count: u32,
    pub kind: u32,
}

// The header: in Ok where its columns and its LF are formed as they must be, else in Err. A file that is too short for
// one has one of zeros, in Err.
#[tactic(auto, using(crate::proofs::Head::short_held))]
pub fn read_header(bytes: &[u8]) -> Result<Header, Header>
    ensures { result ≡ header_held bytes.now }
{
    if bytes.len() < rules::HEADER_BYTES {
        return Err(Header { count: 0, kind: 0 });
    }
    let count = column_at(bytes, 0, 6, false);
    let kind = column_at(bytes, 6, 6, false);
    let header = Header {
        count: natural(count.unwrap_or(0)),
        kind: natural(kind.unwrap_or(0)),
    };
    formed(
        count.is_some() & kind.is_some() & (bytes[12] == b'\n'),
        header,
    )
}

// How many coordinates a shade has on the card of a kind; 0 where it is no kind.
pub fn kind_coordinates(kind: i32) -> u32
    ensures { result ≡ wanted kind }
{
    cards::kind_coordinates(natural(kind))
}

// What is read of a header is checked: 10, 4, 8 in this order.
#[tactic(auto, using(crate::proofs::Head::judging), unfolding(crate::specs::Held::header_code))]
fn check_numbers(header: Header, bytes: &[u8], kind: i32) -> Result<(), Refusal>
    ensures { code result ≡ header_code header (length bytes.now) kind }
{
    let wanted = natural(kind);
    let is_kind = (1 <= wanted) & (wanted <= 4);
    unless(is_kind & (header.kind == wanted), Refusal::WrongKind)?;
    unless(header.count <= rules::MOST_ROWS, Refusal::TableSize)?;
    let whole = rules::HEADER_BYTES + row_bytes(kind_coordinates(kind)) * header.count as usize;
    unless(bytes.len() == whole, Refusal::CutFile)?;
    Ok(())
}

// A file's row count, or what it is refused by for its header: 8, 9, 10, 4, 8 in this order.
#[tactic(auto, using(crate::proofs::Head::check_steps))]
pub fn check_header(bytes: &[u8], kind: i32) -> Result<u32, Refusal>
    ensures number { code result ≡ head_code bytes.now kind }
    ensures row_count { (count : ℕ) → result ≡ Ok count → count ≡ file_count bytes.now }
{
    if bytes.len() < rules::HEADER_BYTES {
        return Err(Refusal::CutFile);
    }
    let header = read_header(bytes).map_err(|_| Refusal::BadColumn)?;
    check_numbers(header, bytes, kind)?;
    Ok(header.count)
}
