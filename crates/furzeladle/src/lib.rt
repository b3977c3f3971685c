// What libfurzeladle.a exports, each function one line over the crate that proves it. include/furzeladle.h is its C
// header.
#![tactic(auto)]

mod calls; // calls.rt: the join session
mod queries; // queries.rt: one whole query
mod roots; // roots.rt: a squared distance as a distance

ghost use Rattle.std.specs.Prelude.{◌≡◌};
ghost use Rattle.rules.specs.File.{check_alone, load_numbers};
ghost use Rattle.version.specs.Version.{version};
ghost use Rattle.file_numbers.specs.Answers.{load_signed};

// The library's version: 10,000 times its first part, 100 times its second, and its third.
#[unsafe(no_mangle)]
pub extern "C" fn furzeladle_version() -> u32
    ensures { result ≡ version }
{
    version::number()
}

// A file's bytes checked alone: the row count, or minus the refusal's number.
#[unsafe(no_mangle)]
pub extern "C" fn furzeladle_check(bytes: &[u8], kind: i32) -> i32
    ensures { result ≡ check_alone bytes.now kind }
{
    file_numbers::check(bytes, kind)
}

// A file's rows read into the front of `out`: the row count, or minus the refusal's number and a hundred times its row.
#[unsafe(no_mangle)]
pub extern "C" fn furzeladle_load(bytes: &[u8], kind: i32, out: &mut [i32]) -> i32
    ensures value { result ≡ load_signed bytes.now kind out.old }
    ensures out_after { out.new ≡ load_numbers bytes.now kind out.old }
{
    file_numbers::load(bytes, kind, out)
}
