// The whole square root of every number: what a squared distance comes to.
ghost use Rattle.std.specs.Prelude.{◌≡◌};
ghost use Rattle.rules.specs.Root.{root, remainder};

// The greatest whole number whose square is not above n.
#[unsafe(no_mangle)]
pub extern "C" fn furzeladle_root(n: u64) -> u64
    ensures { result ≡ root n }
{
    let found = root::root_of(n);
    found.root
}

// What its square leaves of n.
#[unsafe(no_mangle)]
pub extern "C" fn furzeladle_remainder(n: u64) -> u64
    ensures { result ≡ remainder n }
{
    let found = root::root_of(n);
    found.rest
}
