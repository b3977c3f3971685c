// A strict file checked alone, or its rows read into lent numbers: what is answered, as one signed number.
#![tactic(auto)]

ghost use Rattle.std.specs.Prelude.{◌≡◌, ◌≤◌};
ghost use Rattle.rules.specs.Tables.{most_rows};
ghost use Rattle.rules.specs.File.{check_alone, load_numbers};
ghost use Rattle.file_laws.specs.Sizes.{Told};
ghost use Rattle.file_numbers.specs.Answers.{numbered, row_times, load_signed};

use rules::Unfit;

// How many times a refusal's row is added to its number.
const ROW_TIMES: u32 = 100;

// The row count, or minus the refusal's number, its row added so many times.
#[tactic(auto, using(rules::specs::Numbered::number_range), unfolding(crate::specs::Answers::numbered))]
fn told(answer: Result<u32, Unfit>, times: u32) -> i32
    requires { Told most_rows answer × (times ≤ row_times) }
    ensures { result ≡ numbered times answer }
{
    match answer {
        Ok(count) => count as i32,
        Err(unfit) => answers::minus(u32::from(unfit.refusal) + times * unfit.row),
    }
}

// A file's bytes checked alone: the row count, or minus the refusal's number.
#[tactic(auto, using(crate::specs::Answers::check_steps))]
pub fn check(bytes: &[u8], kind: i32) -> i32
    ensures { result ≡ check_alone bytes.now kind }
{
    told(file_check::check(bytes, kind), 0)
}

// A file's rows read into the front of `out`: the row count, or minus the refusal's number and a hundred times its row.
#[tactic(auto, using(file_laws::specs::Sizes::load_told), unfolding(crate::specs::Answers::load_signed))]
pub fn load(bytes: &[u8], kind: i32, out: &mut [i32]) -> i32
    ensures value { result ≡ load_signed bytes.now kind out.old }
    ensures out_after { out.new ≡ load_numbers bytes.now kind out.old }
{
    told(file::load(bytes, kind, out), ROW_TIMES)
}
