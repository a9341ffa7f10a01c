// A layer that asks below for the rounded size.
ghost use Rattle.std.specs.Prelude.{◌≡◌};
ghost use Rattle.layers.specs.Rounded.{rounded_means, rounded_keeps};
ghost use Rattle.layers.specs.RoundedsLemmas.{rounded_lawful};

use heap::fault::{Fault, Kind, hand_up, make_own};
use heap::interface::{Heap, Meant};
use heap::rounding::{Rounding, rounded_size};

#[derive(Drop)]
pub struct Rounded<H, R> {
    below: H,
    // no value of it matters: the type is the rounding
    rounding: R,
}

impl<H: Heap, R: Rounding> Rounded<H, R> {
    pub fn new(below: H, rounding: R) -> Rounded<H, R>
        ensures below { result.below ≡ below }
    {
        Rounded { below, rounding }
    }
}

impl<H: Heap, R: Rounding> Meant for Rounded<H, R> {
    ghost means = { rounded_means R.Rounding.LARGEST R.Rounding.rounds H.Meant.means };

    ghost keeps = { rounded_keeps R.Rounding.rounds H.Meant.keeps };

    ghost lawful = { λ s. rounded_lawful _ _ _ R.Rounding.lawful (H.Meant.lawful s.below) };

    ghost begins = { λ s. H.Meant.begins s.below };
}

impl<H: Heap, R: Rounding> Heap for Rounded<H, R> {
    fn span(&self) -> u32 {
        self.below.span()
    }

    fn offer(&self, n: u32) -> Result<(u32, u32), Fault> {
        let size = rounded_size::<R>(n, Kind::Rounding)?;
        hand_up(self.below.offer(size))
    }

    // The rest is the heap below under this kind: Rust has no delegation, and no method that is one for `&self` and `&mut self`, as offer and allocate are.
    fn find(&self, a: u32) -> Option<(u32, u32)> {
        self.below.find(a)
    }

    fn get(&self, a: u32) -> Result<u8, Fault> {
        make_own(self.below.get(a), Kind::Rounding, a)
    }

    fn allocate(&mut self, n: u32) -> Result<(u32, u32), Fault> {
        let size = rounded_size::<R>(n, Kind::Rounding)?;
        hand_up(self.below.allocate(size))
    }

    fn free(&mut self, a: u32) -> Result<(), Fault> {
        make_own(self.below.free(a), Kind::Rounding, a)
    }

    fn fill(&mut self, a: u32, c: u32, b: u8) -> Result<(), Fault> {
        make_own(self.below.fill(a, c, b), Kind::Rounding, a)
    }

    fn relief(&mut self) {
        self.below.relief();
    }
}
