// Two heaps side by side, which is what a segregator and a fallback share: the first has the addresses below its span, the second those from there on.
ghost use Rattle.std.specs.Prelude.{◌≡◌, ◌∷◌};
ghost use Rattle.heap.specs.Histories.{after_allocate, after_free, after_fill, relieved, Kept};
ghost use Rattle.heap.specs.Meaning.{Finds, Gets, MayFree, MayFill, Stays, Allocates, Frees, Fills};
ghost use Rattle.pairs.specs.Pairs.{Choice, Lies, both_fit, pair_span, pair_live, pair_byte, checked_open, first_offer, second_offer};
ghost use Rattle.pairs.specs.PairStates.{pair_means, PairKeeps};

use heap::checks::check_fill;
use heap::fault::{Cause, Fault, Kind, hand_up, make_own};
use heap::interface::Heap;

// The most addresses that a heap has. A second heap that would take the pair past it is shut.
const LARGEST_SPAN: u32 = 1_048_576;

// Where an address lies: in the first heap's share; in the second's, as the address that it has there; or in neither, since the second is shut.
#[derive(Clone, Copy)]
enum Share {
    First,
    Second(u32),
    Neither,
}

#[derive(Drop)]
pub struct Pair<A, B> {
    first: A,
    second: B,
}

// The calls take the kind of the heap that makes them, which raises the faults, and no field has it, since a pair is made without; `after` holds however that heap chooses between the two.
impl<A: Heap, B: Heap> Pair<A, B> {
    pub fn new(first: A, second: B) -> Pair<A, B>
        ensures first { result.first ≡ first }
        ensures second { result.second ≡ second }
    {
        Pair { first, second }
    }

    // Whether the second heap is open.
    pub fn is_open(&self) -> bool
        ensures { result ≡ both_fit (A.Meant.means self.now.first).span (B.Meant.means self.now.second).span }
    {
        u64::from(self.first.span()) + u64::from(self.second.span()) <= u64::from(LARGEST_SPAN)
    }

    // The share that an address lies in.
    fn share(&self, a: u32) -> Share
        ensures { Lies (A.Meant.means self.now.first).span (both_fit (A.Meant.means self.now.first).span (B.Meant.means self.now.second).span) a result }
    {
        let base = self.first.span();
        if a < base {
            Share::First
        } else if self.is_open() {
            Share::Second(a - base)
        } else {
            Share::Neither
        }
    }

    // The test of a size that goes to the second heap.
    fn check_open(&self, n: u32, kind: Kind) -> Result<(), Fault>
        ensures { result ≡ checked_open kind (A.Meant.means self.now.first) (B.Meant.means self.now.second) n }
    {
        if !self.is_open() {
            return Err(Fault::new(Cause::Shut, kind, n));
        }
        Ok(())
    }

    pub fn span(&self) -> u32
        ensures { result ≡ pair_span (A.Meant.means self.now.first) (B.Meant.means self.now.second) }
    {
        let base = self.first.span();
        if self.is_open() {
            base + self.second.span()
        } else {
            base
        }
    }

    // The offer of the first heap.
    pub fn offer_first(&self, n: u32) -> Result<(u32, u32), Fault>
        ensures { result ≡ first_offer (A.Meant.means self.now.first) n }
    {
        hand_up(self.first.offer(n))
    }

    // The offer of the second heap, at the address that the pair shows.
    pub fn offer_second(&self, n: u32, kind: Kind) -> Result<(u32, u32), Fault>
        ensures { result ≡ second_offer kind (A.Meant.means self.now.first) (B.Meant.means self.now.second) n }
    {
        self.check_open(n, kind)?;
        let (start, length) = hand_up(self.second.offer(n))?;
        Ok((self.first.span() + start, length))
    }

    pub fn find(&self, a: u32) -> Option<(u32, u32)>
        ensures { Finds (pair_live (A.Meant.means self.now.first) (B.Meant.means self.now.second)) a result }
    {
        match self.share(a) {
            Share::First => self.first.find(a),
            Share::Second(inner) => {
                let (start, length) = self.second.find(inner)?;
                Some((a - inner + start, length))
            }
            Share::Neither => None,
        }
    }

    // Get, free and fill are alike but for the call below, by `&self` or by `&mut self`, and for the refusal.
    pub fn get(&self, a: u32, kind: Kind) -> Result<u8, Fault>
        ensures { Gets kind (pair_live (A.Meant.means self.now.first) (B.Meant.means self.now.second)) (pair_byte (A.Meant.means self.now.first) (B.Meant.means self.now.second)) a result }
    {
        match self.share(a) {
            Share::First => make_own(self.first.get(a), kind, a),
            Share::Second(inner) => make_own(self.second.get(inner), kind, a),
            Share::Neither => Err(Fault::new(Cause::Outside, kind, a)),
        }
    }

    // Allocates in the first heap.
    pub fn allocate_first(&mut self, n: u32) -> Result<(u32, u32), Fault>
        ensures answer { result ≡ first_offer (A.Meant.means self.old.first) n }
        ensures after { (k : Kind) (choose : Choice) → Allocates (pair_means A.Meant.means B.Meant.means k choose self.old) (pair_means A.Meant.means B.Meant.means k choose self.new) result }
        ensures kept { Kept (PairKeeps A.Meant.means A.Meant.keeps B.Meant.keeps) (after_allocate n result) self.old self.new }
    {
        hand_up(self.first.allocate(n))
    }

    // Allocates in the second heap.
    pub fn allocate_second(&mut self, n: u32, kind: Kind) -> Result<(u32, u32), Fault>
        ensures answer { result ≡ second_offer kind (A.Meant.means self.old.first) (B.Meant.means self.old.second) n }
        ensures after { (choose : Choice) → Allocates (pair_means A.Meant.means B.Meant.means kind choose self.old) (pair_means A.Meant.means B.Meant.means kind choose self.new) result }
        ensures kept { Kept (PairKeeps A.Meant.means A.Meant.keeps B.Meant.keeps) (after_allocate n result) self.old self.new }
    {
        self.check_open(n, kind)?;
        let base = self.first.span();
        let (start, length) = hand_up(self.second.allocate(n))?;
        Ok((base + start, length))
    }

    pub fn free(&mut self, a: u32, kind: Kind) -> Result<(), Fault>
        ensures answer { MayFree kind (pair_live (A.Meant.means self.old.first) (B.Meant.means self.old.second)) a result }
        ensures after { (choose : Choice) → Frees a (pair_means A.Meant.means B.Meant.means kind choose self.old) (pair_means A.Meant.means B.Meant.means kind choose self.new) result }
        ensures kept { Kept (PairKeeps A.Meant.means A.Meant.keeps B.Meant.keeps) (after_free a result) self.old self.new }
    {
        match self.share(a) {
            Share::First => make_own(self.first.free(a), kind, a),
            Share::Second(inner) => make_own(self.second.free(inner), kind, a),
            Share::Neither => Err(Fault::new(Cause::NotLive, kind, a)),
        }
    }

    pub fn fill(&mut self, a: u32, c: u32, b: u8, kind: Kind) -> Result<(), Fault>
        ensures answer { MayFill kind (pair_live (A.Meant.means self.old.first) (B.Meant.means self.old.second)) a c result }
        ensures after { (choose : Choice) → Fills a c b (pair_means A.Meant.means B.Meant.means kind choose self.old) (pair_means A.Meant.means B.Meant.means kind choose self.new) result }
        ensures kept { Kept (PairKeeps A.Meant.means A.Meant.keeps B.Meant.keeps) (after_fill a c b result) self.old self.new }
    {
        match self.share(a) {
            Share::First => make_own(self.first.fill(a, c, b), kind, a),
            Share::Second(inner) => make_own(self.second.fill(inner, c, b), kind, a),
            Share::Neither => check_fill(None, a, c, kind),
        }
    }

    // Relief reaches both heaps, a shut one too.
    pub fn relief(&mut self)
        ensures after { (k : Kind) (choose : Choice) → Stays (pair_means A.Meant.means B.Meant.means k choose self.old) (pair_means A.Meant.means B.Meant.means k choose self.new) }
        ensures kept { Kept (PairKeeps A.Meant.means A.Meant.keeps B.Meant.keeps) (λ h. relieved ∷ h) self.old self.new }
    {
        self.first.relief();
        self.second.relief();
    }
}
