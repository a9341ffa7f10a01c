// A heap made of two: sizes up to a threshold go to the first, larger ones to the second.
ghost use Rattle.std.specs.Prelude.{refl, ◌≡◌, nat_le};
ghost use Rattle.heap.specs.Meaning.{NothingLive};
ghost use Rattle.pairs.specs.PairStates.{segregator_means, SegregatorKeeps};
ghost use Rattle.pairs.specs.Paired.{segregated_lawful};

use crate::pair::Pair;
use heap::checks::admit;
use heap::fault::{Fault, Kind};
use heap::interface::{Heap, LARGEST_SIZE, Meant};

#[derive(Drop)]
pub struct Segregator<A, B> {
    pair: Pair<A, B>,
    threshold: u32,
}

impl<A: Heap, B: Heap> Segregator<A, B> {
    // Over two heaps with nothing live, nothing is live.
    pub fn new(first: A, second: B, threshold: u32) -> Segregator<A, B>
        ensures first { result.pair.first ≡ first }
        ensures second { result.pair.second ≡ second }
        ensures threshold { result.threshold ≡ threshold }
        ensures empty { NothingLive (A.Meant.means first) → NothingLive (B.Meant.means second) → NothingLive (segregator_means A.Meant.means B.Meant.means result) }
    {
        Segregator {
            pair: Pair::new(first, second),
            threshold,
        }
    }

    // Whether a size goes to the first heap.
    fn is_small(&self, n: u32) -> bool
        ensures { result ≡ nat_le n self.now.threshold }
    {
        n <= self.threshold
    }
}

impl<A: Heap, B: Heap> Meant for Segregator<A, B> {
    ghost means = { segregator_means A.Meant.means B.Meant.means };

    ghost keeps = { SegregatorKeeps A.Meant.means A.Meant.keeps B.Meant.keeps };

    ghost lawful = { λ s. segregated_lawful s.threshold _ _ (A.Meant.lawful s.pair.first) (B.Meant.lawful s.pair.second) };

    ghost begins = { λ s. record { threshold = refl; pair = record { span = refl; first = A.Meant.begins s.pair.first; second = B.Meant.begins s.pair.second } } };
}

impl<A: Heap, B: Heap> Heap for Segregator<A, B> {
    fn span(&self) -> u32 {
        self.pair.span()
    }

    fn offer(&self, n: u32) -> Result<(u32, u32), Fault> {
        admit(n, LARGEST_SIZE, Kind::Segregator)?;
        if self.is_small(n) {
            self.pair.offer_first(n)
        } else {
            self.pair.offer_second(n, Kind::Segregator)
        }
    }

    // What does not hang on a size is the pair's, under this kind. A type parameter for the choice would bring a trait with the meaning and the rule of both heaps made of two, and be no shorter.
    fn find(&self, a: u32) -> Option<(u32, u32)> {
        self.pair.find(a)
    }

    fn get(&self, a: u32) -> Result<u8, Fault> {
        self.pair.get(a, Kind::Segregator)
    }

    // As offer, by the calls in place of the questions: Rust has no method that is one for `&self` and `&mut self`.
    fn allocate(&mut self, n: u32) -> Result<(u32, u32), Fault> {
        admit(n, LARGEST_SIZE, Kind::Segregator)?;
        if self.is_small(n) {
            self.pair.allocate_first(n)
        } else {
            self.pair.allocate_second(n, Kind::Segregator)
        }
    }

    fn free(&mut self, a: u32) -> Result<(), Fault> {
        self.pair.free(a, Kind::Segregator)
    }

    fn fill(&mut self, a: u32, c: u32, b: u8) -> Result<(), Fault> {
        self.pair.fill(a, c, b, Kind::Segregator)
    }

    fn relief(&mut self) {
        self.pair.relief();
    }
}
