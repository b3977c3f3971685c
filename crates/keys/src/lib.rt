// The pairs held, ranked, each as one number, its key: a pair is put at its place, and what passes the room there is
// falls off.
#![tactic(auto)]

ghost use Rattle.std.specs.Prelude.{◌≡◌, ◌+◌, ◌-◌, ◌<◌, ◌≤◌, ◌++◌, ◌∷◌, [], List, ℕ, length, take};
ghost use Rattle.lists.specs.Words.{All};
ghost use Rattle.keys.specs.Held.{Keyed, Narrow, Put, falls_off, key_of, pair_of, place_at, place_of, insert_at};
ghost use Rattle.keys.specs.Places.{places_of};

use rules::{PLACES, Pair};
use std::marker::Model;

// The key of a pair: of two pairs the one ahead has the lower key.
#[tactic(auto, unfolding(crate::specs::Held::key_of))]
pub fn key(p: Pair) -> u64
    requires { Narrow p }
    ensures { result ≡ key_of p }
{
    u64::from(u32::MAX - p.sum) * 4294967296 + u64::from(p.field) * 65536 + u64::from(p.trim)
}

// The pair of a key.
#[tactic(auto, unfolding(crate::specs::Held::pair_of))]
pub fn pair(k: u64) -> Pair
    ensures { result ≡ pair_of k }
{
    Pair {
        sum: (4294967295 - k / 4294967296) as u32,
        field: (k / 65536 % 65536) as u32,
        trim: (k % 65536) as u32,
    }
}

// The place of the key p.
#[tactic(auto, using(crate::proofs::Lists::places))]
fn find(keys: &[u64], p: u64) -> usize
    ensures { (result ≡ place_of p keys.now) × (result ≤ length keys.now) }
{
    for (i, q) in keys.iter().enumerate() {
        if p <= *q {
            return i;
        }
    }
    keys.len()
}

// The keys from i on move up by one, and p stands at i.
#[tactic(auto, using(crate::proofs::Lists::shifted))]
fn shift(a: &mut [u64], n: usize, i: usize, p: u64)
    requires { (i ≤ n) × (n < length a.old) }
    ensures { take (n + 1) a.new ≡ insert_at i p (take n a.old) }
{
    a.copy_within(i..n, i + 1);
    a[i] = p;
}

// The keys of the pairs held, at most 64. It is made where it is used: given back by a function, so long a value would
// be copied.
#[derive(Drop)]
pub struct Keys {
    pub places: [u64; PLACES],
    pub held: usize,
}

impl Model for Keys {
    ghost Value = { List ℕ };

    ghost view = { λ k. take k.held k.places };

    ghost invariant = { λ k. k.held ≤ 64 };
}

impl Keys {
    // The keys of these pairs, in place of those held.
    pub fn hold(&mut self, pairs: &[Pair])
        requires { (length pairs.now ≤ 64) × All Narrow pairs.now }
        ensures { Keyed pairs.now self.new }
    {
        self.held = 0;
        for p in pairs {
            self.push(key(*p));
        }
    }

    // A key behind all others.
    fn push(&mut self, k: u64)
        requires { length self.old < 64 }
        ensures { self.new ≡ self.old ++ k ∷ [] }
    {
        self.places[self.held] = k;
        self.held += 1;
    }

    // How many pairs are held.
    pub fn held(&self) -> usize
        ensures many { result ≡ length self.now }
        ensures few { length self.now ≤ 64 }
    {
        self.held
    }

    // The pair in place i, zeros beyond those held.
    pub fn pair(&self, i: usize) -> Pair
        ensures { result ≡ place_at self.now i }
    {
        if i < self.held {
            pair(self.places[i])
        } else {
            rules::NO_PAIR
        }
    }

    // The last pair held, zeros if there is none.
    pub fn last(&self) -> Pair
        ensures { result ≡ place_at self.now (length self.now - 1) }
    {
        self.pair(self.held.saturating_sub(1))
    }

    // The pairs held go into a record's places, zeros beyond.
    pub fn fill(&self, pairs: &mut [Pair; PLACES])
        ensures { pairs.new ≡ places_of self.now }
    {
        for i in 0..self.held {
            pairs[i] = pair(self.places[i]);
        }
        pairs[self.held..].fill(rules::NO_PAIR);
    }

    // Whether p would fall off: the room, if there is any, is used up, and the last pair held is ahead of it.
    pub fn falls_off(&self, room: usize, p: Pair) -> bool
        requires { Narrow p × (room ≤ 64) }
        ensures { 0 < room → result ≡ falls_off room self.now p }
    {
        (self.held == room) & (self.places[(room + 63) % 64] < key(p))
    }

    // p among the pairs held, of which at most room are kept.
    pub fn put(&mut self, room: usize, p: Pair)
        requires { Narrow p × (length self.old ≤ room) × (room ≤ 64) }
        ensures { Put room p self.old self.new }
    {
        let k = key(p);
        let i = find(&self.places[..self.held], k);
        if i < room {
            let kept = (room - 1).min(self.held);
            shift(&mut self.places, kept, i, k);
            self.held = kept + 1;
        }
    }
}
