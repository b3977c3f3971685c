// Numbers from a seed: the same seed and place always give the same number.
ghost use Rattle.std.specs.Prelude.{◌<◌};

// Dice of a seed.
#[derive(Clone, Copy)]
pub struct Dice(pub u64);

fn stirred(x: u64) -> u64 {
    let a = x ^ (x << 13);
    let b = a ^ (a >> 7);
    b ^ (b << 17)
}

impl Dice {
    // A number below n; 0 where n is 0.
    pub fn below(self, place: u64, n: u32) -> u32
        ensures { 0 < n → result < n }
    {
        if n == 0 {
            return 0;
        }
        let a = stirred(self.0.wrapping_add(0x9e37_79b9_7f4a_7c15));
        let b = stirred(a.wrapping_add(place));
        let c = stirred(b.wrapping_add(0xd1b5_4a32_d192_ed03));
        let high = (c >> 32) as u32;
        high % n
    }

    pub fn one_in(self, place: u64, n: u32) -> bool {
        self.below(place, n) == 0
    }

    // One of eight.
    pub fn pick<T: Copy>(self, place: u64, of: [T; 8]) -> T {
        of[self.below(place, 8) as usize]
    }

    // Those of a step of the seed's session.
    pub fn at_step(self, step: u64) -> Dice {
        Dice((self.0 << 16).wrapping_add(step))
    }
}
