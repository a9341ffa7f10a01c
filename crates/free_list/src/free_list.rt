// A layer that holds freed blocks back, and serves the newest that is long enough.
ghost use Rattle.std.specs.Prelude.{◌≡◌, ◌<◌, ◌≤◌, [], ◌∷◌, length, Ok};
ghost use Rattle.heap.specs.Faults.{up};
ghost use Rattle.heap.specs.Histories.{History, filled, size_at, after_allocate, after_free, Kept};
ghost use Rattle.heap.specs.Meaning.{Finds, MayFree, Allocates, Frees, Filled};
ghost use Rattle.free_list.specs.Holdings.{without};
ghost use Rattle.free_list.specs.FreeLists.{newest, unheld, freed_in_turn, AllLive, Released, TakesOut, ServesNext, Exchanges};
ghost use Rattle.free_list.specs.FreeList.{listed, free_list_means, free_list_keeps};
ghost use Rattle.free_list.specs.FreeListed.{free_listed_lawful};
ghost use Rattle.free_list.specs.Keeping.{begun_keeps};

use crate::held::Held;
use heap::checks::{check_fill, check_free, check_get};
use heap::fault::{Fault, Kind, hand_up, make_own};
use heap::interface::{Heap, Meant, length_at};
use heap::rounding::{Rounding, rounded_size};
use std::mem;

#[derive(Drop)]
pub struct FreeList<H, R> {
    below: H,
    // where the blocks begin that are live below and have ended above
    held: Held,
    // no value of it matters: the type is the rounding
    rounding: R,
}

impl<H: Heap, R: Rounding> FreeList<H, R> {
    // Nothing is held at first, so over any heap, also one with nothing live, each held address begins a live block below.
    pub fn new(below: H, rounding: R) -> FreeList<H, R>
        ensures below { result.below ≡ below }
        ensures held { listed result.held ≡ [] }
        ensures living { AllLive (listed result.held) (H.Meant.means result.below).live }
    {
        FreeList {
            below,
            held: Held::new(),
            rounding,
        }
    }

    // The newest held block of at least `size` bytes.
    fn newest(&self, size: u32) -> Option<(u32, u32)>
        ensures { result ≡ newest (H.Meant.means self.now.below).live size (listed self.now.held) }
    {
        self.held
            .as_slice()
            .iter()
            .rev()
            .map(|a| (*a, length_at(&self.below, *a)))
            .find(|block| size <= block.1)
    }

    // The live block that covers `a`: none, where a held one does.
    fn covering(&self, a: u32) -> Option<(u32, u32)>
        ensures { Finds (unheld (listed self.now.held) (H.Meant.means self.now.below).live) a result }
    {
        let block = self.below.find(a)?;
        if self.held.contains(block.0) {
            return None;
        }
        Some(block)
    }

    // Clears the block (a, c), and holds it no more. The fill is accepted, since the block is live below.
    fn serve(&mut self, a: u32, c: u32)
        requires some { 0 < c }
        requires live { (H.Meant.means self.old.below).live a ≡ c }
        ensures held { listed self.new.held ≡ without a (listed self.old.held) }
        ensures after { Filled a c 0 (H.Meant.means self.old.below) (H.Meant.means self.new.below) }
        ensures kept { Kept H.Meant.keeps (λ h. filled a c 0 ∷ h) self.old.below self.new.below }
    {
        let _ = self.below.fill(a, c, 0);
        self.held.remove(a);
    }

    // Takes a block from below. Its address may stand in the table where no block began, and then the block would be hidden.
    fn fetch(&mut self, size: u32) -> Result<(u32, u32), Fault>
        ensures answer { result ≡ up ((H.Meant.means self.old.below).offer size) }
        ensures held { TakesOut (listed self.old.held) (listed self.new.held) result }
        ensures after { Allocates (H.Meant.means self.old.below) (H.Meant.means self.new.below) result }
        ensures kept { Kept H.Meant.keeps (after_allocate size result) self.old.below self.new.below }
    {
        let block = hand_up(self.below.allocate(size))?;
        self.held.remove(block.0);
        Ok(block)
    }

    // Frees the held blocks below, oldest first, and holds none. A free is refused where no block begins, and then nothing changes.
    fn release(&mut self)
        ensures held { listed self.new.held ≡ [] }
        ensures after { Released (listed self.old.held) (H.Meant.means self.old.below) (H.Meant.means self.new.below) }
        ensures kept { (from : H) (h : History) → AllLive (listed self.old.held) (H.Meant.means self.old.below).live → H.Meant.keeps from h self.old.below → H.Meant.keeps from (freed_in_turn (listed self.old.held) h) self.new.below }
    {
        let held = mem::replace(&mut self.held, Held::new());
        for a in held.as_slice() {
            let _ = self.below.free(*a);
        }
    }

    // Frees the block that begins at `a`: it is held, or freed below where 16 are held already.
    //
    // `serves`: take any history that the free list has kept up to here, in which the block at `a` was granted for some size. If fewer than 16 were held, then the next offer for any size from 1 to that size rounded is this block, whole. The laws of a rounding give this, whichever rounding it is.
    pub fn give_back(&mut self, a: u32) -> Result<(), Fault>
        ensures answer { MayFree Kind.FreeList (free_list_means R.Rounding.LARGEST R.Rounding.rounds H.Meant.means self.old).live a result }
        ensures after { Frees a (free_list_means R.Rounding.LARGEST R.Rounding.rounds H.Meant.means self.old) (free_list_means R.Rounding.LARGEST R.Rounding.rounds H.Meant.means self.new) result }
        ensures kept { Kept (free_list_keeps R.Rounding.rounds H.Meant.means H.Meant.keeps) (after_free a result) self.old self.new }
        ensures serves { (from : FreeList H R) (h : History) → free_list_keeps R.Rounding.rounds H.Meant.means H.Meant.keeps from h self.old → length (listed self.old.held) < 16 → ServesNext R.Rounding.rounds a (size_at h a) (free_list_means R.Rounding.LARGEST R.Rounding.rounds H.Meant.means self.old) (free_list_means R.Rounding.LARGEST R.Rounding.rounds H.Meant.means self.new) }
    {
        check_free(self.covering(a), a, Kind::FreeList)?;
        if self.held.is_full() {
            return make_own(self.below.free(a), Kind::FreeList, a);
        }
        self.held.push(a);
        Ok(())
    }

    // Frees the block that begins at `a`, then allocates `n` bytes, and gives both answers.
    //
    // `serves`: under the same conditions, and for `n` from 1 to that size rounded, the second answer is this block again, whole.
    pub fn exchange(&mut self, a: u32, n: u32) -> (Result<(), Fault>, Result<(u32, u32), Fault>)
        ensures after { Exchanges a n (free_list_means R.Rounding.LARGEST R.Rounding.rounds H.Meant.means self.old) (free_list_means R.Rounding.LARGEST R.Rounding.rounds H.Meant.means self.new) result.0 result.1 }
        ensures kept { Kept (free_list_keeps R.Rounding.rounds H.Meant.means H.Meant.keeps) (λ h. after_allocate n result.1 (after_free a result.0 h)) self.old self.new }
        ensures serves { (from : FreeList H R) (h : History) → free_list_keeps R.Rounding.rounds H.Meant.means H.Meant.keeps from h self.old → length (listed self.old.held) < 16 → 1 ≤ n → n ≤ R.Rounding.rounds (size_at h a) → result.1 ≡ Ok (a, (free_list_means R.Rounding.LARGEST R.Rounding.rounds H.Meant.means self.old).live a) }
    {
        let freed = self.give_back(a);
        let granted = self.allocate(n);
        (freed, granted)
    }
}

impl<H: Heap, R: Rounding> Meant for FreeList<H, R> {
    ghost means = { free_list_means R.Rounding.LARGEST R.Rounding.rounds H.Meant.means };

    ghost keeps = { free_list_keeps R.Rounding.rounds H.Meant.means H.Meant.keeps };

    ghost lawful = { λ s. free_listed_lawful _ _ (listed s.held) _ R.Rounding.lawful (H.Meant.lawful s.below) };

    ghost begins = { λ s. begun_keeps _ (listed s.held) _ (λ q. H.Meant.keeps s.below q s.below) (H.Meant.begins s.below) };
}

impl<H: Heap, R: Rounding> Heap for FreeList<H, R> {
    fn span(&self) -> u32 {
        self.below.span()
    }

    fn offer(&self, n: u32) -> Result<(u32, u32), Fault> {
        let size = rounded_size::<R>(n, Kind::FreeList)?;
        self.newest(size)
            .map_or_else(|| hand_up(self.below.offer(size)), Ok)
    }

    fn find(&self, a: u32) -> Option<(u32, u32)> {
        self.covering(a)
    }

    // The tests of get and fill are shared, and so is how a fault from below is made this layer's own; a function for both layers would only hand these on.
    fn get(&self, a: u32) -> Result<u8, Fault> {
        check_get(self.covering(a), a, Kind::FreeList)?;
        make_own(self.below.get(a), Kind::FreeList, a)
    }

    fn allocate(&mut self, n: u32) -> Result<(u32, u32), Fault> {
        let size = rounded_size::<R>(n, Kind::FreeList)?;
        match self.newest(size) {
            Some(block) => {
                self.serve(block.0, block.1);
                Ok(block)
            }
            None => self.fetch(size),
        }
    }

    fn free(&mut self, a: u32) -> Result<(), Fault> {
        self.give_back(a)
    }

    fn fill(&mut self, a: u32, c: u32, b: u8) -> Result<(), Fault> {
        check_fill(self.covering(a), a, c, Kind::FreeList)?;
        make_own(self.below.fill(a, c, b), Kind::FreeList, a)
    }

    fn relief(&mut self) {
        self.release();
        self.below.relief();
    }
}
