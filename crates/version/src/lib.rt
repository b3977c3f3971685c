// The library's version. FURZELADLE_VERSION of include/furzeladle.h is the same number.
#![tactic(auto)]

ghost use Rattle.std.specs.Prelude.{◌≡◌};
ghost use Rattle.version.specs.Version.{version};

const MAJOR: u32 = 1;

const MINOR: u32 = 0;

const PATCH: u32 = 0;

// As one number: 10,000 times the first part, 100 times the second, and the third.
pub fn number() -> u32
    ensures { result ≡ version }
{
    10000 * MAJOR + 100 * MINOR + PATCH
}
