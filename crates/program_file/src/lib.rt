// A file that the pairing program is given: the kind that its bytes are read as, and its table of at most 512 rows.
#![tactic(auto)]

ghost use Rattle.std.specs.Prelude.{◌≡◌, ◌≤◌, ◌==◌, length};
ghost use Rattle.std.specs.List.{list_all};
ghost use Rattle.rules.specs.Tables.{kind_coordinates};
ghost use Rattle.rules.specs.File.{blank, columns, loaded_into};
ghost use Rattle.rules.specs.Query.{program_kind};
ghost use Rattle.program_sizes.specs.Sizes.{table_room};
ghost use Rattle.program_file.specs.Given.{program_file};

use rules::{Refusal, Unfit};

// Whether bytes 7 to 11 of a file are blanks.
fn is_blank(bytes: &[u8]) -> bool
    requires { 11 ≤ length bytes.now }
    ensures { result ≡ list_all (λ b. b == blank) (columns bytes.now 6 5) }
{
    bytes[6..11].iter().all(|byte| *byte == b' ')
}

// The kind that a file is read as: `new` where its header has that digit alone in the kind's columns, else `old`. It
// refuses nothing: what is formed otherwise is for the check.
#[tactic(auto, using(crate::proofs::Steps::peek_steps))]
pub fn file_kind(old: u32, new: u32, bytes: &[u8]) -> u32
    ensures { result ≡ program_kind old new bytes.now }
{
    if bytes.len() < 12 {
        return old;
    }
    let digit = u64::from(bytes[11]) == 48 + u64::from(new);
    if is_blank(bytes) & digit {
        return new;
    }
    old
}

// A table of at most 512 rows, from a file's bytes, read as this kind.
pub fn load_table(bytes: &[u8], kind: u32, out: &mut [i32]) -> Result<u32, Unfit>
    requires { (kind ≤ 4) × (table_room ≤ length out.old) }
    ensures value { result ≡ program_file bytes.now kind }
    ensures out_after { out.new
        ≡ loaded_into (kind_coordinates kind) bytes.now out.old result }
{
    let wanted = kind as i32;
    if program_sizes::most_bytes(wanted) < bytes.len() {
        return Err(Unfit {
            refusal: Refusal::TableSize,
            row: 0,
        });
    }
    file::load(bytes, wanted, out)
}
