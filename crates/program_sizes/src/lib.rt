// How long what the pairing program is given may be: room for a file, its table and the input; and a file's most bytes,
// by the kind that it is read as. All of it is fixed memory.
#![tactic(auto)]

ghost use Rattle.std.specs.Prelude.{◌≡◌, ◌+◌};
ghost use Rattle.rules.specs.declared.Card.TheVariants.{New};
ghost use Rattle.rules.specs.Tables.{coordinates};
ghost use Rattle.rules.specs.File.{wanted};
ghost use Rattle.rules.specs.Query.{most_file_bytes, input_length};
ghost use Rattle.program_sizes.specs.Sizes.{table_room};

// How many coordinates a shade has on the new card, and how many bytes a row: its columns, and LF. No card has more.
const COORDINATES: usize = 3;

const ROW_BYTES: usize = 6 + 6 + 7 + 7 + 6 + 1;

// Room for a file's bytes, and for the input's: one more than is allowed, so that one too long is seen.
pub const FILE_ROOM: usize = rules::HEADER_BYTES + ROW_BYTES * rules::PROGRAM_ROWS + 1;

pub const INPUT_ROOM: usize = rules::INPUT_LENGTH + 1;

#[tactic(auto, unfolding(rules::specs::File::row_bytes, rules::specs::File::column_start))]
pub fn file_room() -> usize
    ensures { result ≡ most_file_bytes (coordinates New) + 1 }
{
    FILE_ROOM
}

pub fn input_room() -> usize
    ensures { result ≡ input_length + 1 }
{
    INPUT_ROOM
}

// The numbers of the longest table: 512 rows of the new card.
pub const TABLE_ROOM: usize = (COORDINATES + 2) * rules::PROGRAM_ROWS;

pub fn table_room() -> usize
    ensures { result ≡ table_room }
{
    TABLE_ROOM
}

// How many bytes a file of 512 rows has that is read as this kind.
#[tactic(auto, using(file_laws::specs::Kinds::row_short))]
pub fn most_bytes(kind: i32) -> usize
    ensures { result ≡ most_file_bytes (wanted kind) }
{
    let row = row_columns::row_bytes(file_header::kind_coordinates(kind));
    rules::HEADER_BYTES + row * rules::PROGRAM_ROWS
}
