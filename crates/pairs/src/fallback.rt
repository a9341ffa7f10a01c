// A heap made of two: what the first refuses, the second is asked for.
ghost use Rattle.std.specs.Prelude.{refl, ◌≡◌};
ghost use Rattle.heap.specs.Meaning.{NothingLive};
ghost use Rattle.pairs.specs.PairStates.{fallback_means, fallback_keeps};
ghost use Rattle.pairs.specs.Paired.{fallen_back_lawful};

use crate::pair::Pair;
use heap::checks::admit;
use heap::fault::{Fault, Kind};
use heap::interface::{Heap, LARGEST_SIZE, Meant};

#[derive(Drop)]
pub struct Fallback<A, B> {
    pair: Pair<A, B>,
}

impl<A: Heap, B: Heap> Fallback<A, B> {
    // Over two heaps with nothing live, nothing is live.
    pub fn new(first: A, second: B) -> Fallback<A, B>
        ensures first { result.pair.first ≡ first }
        ensures second { result.pair.second ≡ second }
        ensures empty { NothingLive (A.Meant.means first) → NothingLive (B.Meant.means second) → NothingLive (fallback_means A.Meant.means B.Meant.means result) }
    {
        Fallback {
            pair: Pair::new(first, second),
        }
    }
}

impl<A: Heap, B: Heap> Meant for Fallback<A, B> {
    ghost means = { fallback_means A.Meant.means B.Meant.means };

    ghost keeps = { fallback_keeps A.Meant.means A.Meant.keeps B.Meant.keeps };

    ghost lawful = { λ s. fallen_back_lawful _ _ (A.Meant.lawful s.pair.first) (B.Meant.lawful s.pair.second) };

    ghost begins = { λ s. record { span = refl; first = A.Meant.begins s.pair.first; second = B.Meant.begins s.pair.second } };
}

impl<A: Heap, B: Heap> Heap for Fallback<A, B> {
    fn span(&self) -> u32 {
        self.pair.span()
    }

    fn offer(&self, n: u32) -> Result<(u32, u32), Fault> {
        admit(n, LARGEST_SIZE, Kind::Fallback)?;
        self.pair
            .offer_first(n)
            .or_else(|_| self.pair.offer_second(n, Kind::Fallback))
    }

    fn find(&self, a: u32) -> Option<(u32, u32)> {
        self.pair.find(a)
    }

    fn get(&self, a: u32) -> Result<u8, Fault> {
        self.pair.get(a, Kind::Fallback)
    }

    // A refusal by the first changes nothing, so the first need not be asked for its offer before. By match and not by or_else: of what a closure does to the pair that it captures, the proof learns nothing.
    fn allocate(&mut self, n: u32) -> Result<(u32, u32), Fault> {
        admit(n, LARGEST_SIZE, Kind::Fallback)?;
        match self.pair.allocate_first(n) {
            Ok(block) => Ok(block),
            Err(_) => self.pair.allocate_second(n, Kind::Fallback),
        }
    }

    fn free(&mut self, a: u32) -> Result<(), Fault> {
        self.pair.free(a, Kind::Fallback)
    }

    fn fill(&mut self, a: u32, c: u32, b: u8) -> Result<(), Fault> {
        self.pair.fill(a, c, b, Kind::Fallback)
    }

    fn relief(&mut self) {
        self.pair.relief();
    }
}
