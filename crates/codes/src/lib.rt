// A check refuses, or it passes: of several, made one after the other with `?`, the first that refuses decides.
#![tactic(auto)]

ghost use Rattle.std.specs.Prelude.{◌≡◌, [], ◌∷◌};
ghost use Rattle.rules.specs.Numbers.{unless, first, code, number_of};

use rules::Refusal;

// A refusal, unless its test passes.
pub fn unless(passes: bool, refusal: Refusal) -> Result<(), Refusal>
    ensures { code result ≡ unless passes (number_of refusal) }
{
    if passes {
        return Ok(());
    }
    Err(refusal)
}

// The first of two checks that refuses.
pub fn first(check: Result<(), Refusal>, next: Result<(), Refusal>) -> Result<(), Refusal>
    ensures { code result ≡ first (code check ∷ code next ∷ []) }
{
    check?;
    next
}
