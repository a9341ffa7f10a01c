// A layer that stands a mark before and behind each block, to see what ran over its end.
ghost use Rattle.std.specs.Prelude.{◌≡◌, ◌+◌, ◌<◌, ◌≤◌, true, false};
ghost use Rattle.heap.specs.Meaning.{Covered, NothingLive, Finds};
ghost use Rattle.layers.specs.Affixes.{affix_live, Marked, Whole, AllWhole};
ghost use Rattle.layers.specs.Affix.{affix_means, AffixKeeps};
ghost use Rattle.layers.specs.Affixed.{affixed_lawful};

use heap::checks::{admit, check_fill, check_free, check_get};
use heap::fault::{Fault, Kind, hand_up, make_own};
use heap::interface::{Heap, LARGEST_SIZE, Meant};

// Each mark is eight bytes of this.
const MARK: u8 = 0x5A;

#[derive(Drop)]
pub struct Affix<H> {
    below: H,
}

// Whether the eight bytes from `from` on, which lie in one live block, are a mark.
fn marked<H: Heap>(heap: &H, from: u32) -> bool
    requires { (from + 8 ≤ 1048576) × (∥ Covered (H.Meant.means heap.now).live from 8 ∥₁) }
    ensures yes { result ≡ true → Marked (H.Meant.means heap.now).byte from }
    ensures no { result ≡ false → Marked (H.Meant.means heap.now).byte from → ⊥ }
{
    (from..from + 8).all(|a| heap.get(a) == Ok(MARK))
}

impl<H: Heap> Affix<H> {
    // Over a heap with nothing live, no block lacks a mark.
    pub fn new(below: H) -> Affix<H>
        ensures below { result.below ≡ below }
        ensures whole { NothingLive (H.Meant.means below) → AllWhole (H.Meant.means result.below) }
    {
        Affix { below }
    }

    // The block above that covers `a`: inside a block below that is long enough for two marks, between these.
    fn inner(&self, a: u32) -> Option<(u32, u32)>
        ensures { Finds (affix_live (H.Meant.means self.now.below).live) a result }
    {
        match self.below.find(a) {
            Some((start, length)) if length >= 24 && start + 8 <= a && a - start < length - 8 => {
                Some((start + 8, length - 16))
            }
            _ => None,
        }
    }

    // Whether a block begins at `a` and both of its marks are as they were written.
    pub fn whole(&self, a: u32) -> bool
        ensures yes { result ≡ true → (0 < affix_live (H.Meant.means self.now.below).live a) × Whole (H.Meant.means self.now.below).live (H.Meant.means self.now.below).byte a }
        ensures no { result ≡ false → 0 < affix_live (H.Meant.means self.now.below).live a → Whole (H.Meant.means self.now.below).live (H.Meant.means self.now.below).byte a → ⊥ }
    {
        match self.inner(a) {
            Some((start, length)) if start == a => {
                marked(&self.below, a - 8) && marked(&self.below, a + length)
            }
            _ => false,
        }
    }
}

impl<H: Heap> Meant for Affix<H> {
    ghost means = { affix_means H.Meant.means };

    ghost keeps = { AffixKeeps H.Meant.means H.Meant.keeps };

    ghost lawful = { λ s. affixed_lawful _ (H.Meant.lawful s.below) };

    ghost begins = { λ s. record { whole = λ w. w; below = H.Meant.begins s.below } };
}

impl<H: Heap> Heap for Affix<H> {
    fn span(&self) -> u32 {
        self.below.span()
    }

    fn offer(&self, n: u32) -> Result<(u32, u32), Fault> {
        let n = admit(n, LARGEST_SIZE, Kind::Affix)?;
        let (start, length) = hand_up(self.below.offer(n + 16))?;
        Ok((start + 8, length - 16))
    }

    fn find(&self, a: u32) -> Option<(u32, u32)> {
        self.inner(a)
    }

    // The tests of get and fill are shared, and so is how a fault from below is made this layer's own; a function for both layers would only hand these on.
    fn get(&self, a: u32) -> Result<u8, Fault> {
        check_get(self.inner(a), a, Kind::Affix)?;
        make_own(self.below.get(a), Kind::Affix, a)
    }

    fn allocate(&mut self, n: u32) -> Result<(u32, u32), Fault> {
        let n = admit(n, LARGEST_SIZE, Kind::Affix)?;
        let (start, length) = hand_up(self.below.allocate(n + 16))?;
        let _ = self.below.fill(start, 8, MARK);
        let _ = self.below.fill(start + length - 8, 8, MARK);
        Ok((start + 8, length - 16))
    }

    fn free(&mut self, a: u32) -> Result<(), Fault> {
        check_free(self.inner(a), a, Kind::Affix)?;
        make_own(self.below.free(a - 8), Kind::Affix, a)
    }

    fn fill(&mut self, a: u32, c: u32, b: u8) -> Result<(), Fault> {
        check_fill(self.inner(a), a, c, Kind::Affix)?;
        make_own(self.below.fill(a, c, b), Kind::Affix, a)
    }

    fn relief(&mut self) {
        self.below.relief();
    }
}
