// A boundary tag heap, after Knuth: chunks with a tag at either end, the lowest that fits, and neighbours joined when one is freed.
#![tactic(auto)]

ghost use Rattle.std.specs.Prelude.{◌≡◌};
ghost use Rattle.heap.specs.Histories.{after_allocate, after_free, after_fill, Kept};
ghost use Rattle.heap.specs.Meaning.{NothingLive, MayFree, MayFill, Allocates, Frees, Fills};
ghost use Rattle.boundary_tag.specs.Chunks.{tag_means, TagKeeps, Fresh, Grants, Releases, Paints};
ghost use Rattle.boundary_tag.specs.Laws.{tag_lawful};
ghost use Rattle.boundary_tag.specs.Keeping.{tag_begins};

mod blocks;
mod chunks;
mod tags;

use crate::chunks::{Chunk, Chunks, usable};
use crate::tags::State;
use heap::checks::{check_fill, check_free, check_get};
use heap::fault::{Fault, Kind};
use heap::interface::{Heap, Meant};
use region::paint;

// Chunks tile the region's span; the tags are in the region itself.
#[derive(Drop)]
pub struct BoundaryTag<'r> {
    region: &'r mut [u8],
}

impl<'r> BoundaryTag<'r> {
    #[tactic(auto, using(crate::specs::Laws::span_within, crate::specs::Laws::span_most, crate::proofs::Calls::span_some))]
    pub fn new(region: &'r mut [u8]) -> BoundaryTag<'r>
        ensures fresh { Fresh region.old result.region.now }
        ensures nothing { NothingLive (tag_means result.region.now) }
    {
        let span = usable(region);
        if span != 0 {
            let whole = Chunk {
                start: 0,
                length: span,
                state: State::Free,
            };
            whole.write(region);
        }
        BoundaryTag { region }
    }
}

impl<'r> Meant for BoundaryTag<'r> {
    ghost means = { λ s. tag_means s.region.now };

    ghost keeps = { λ from h s. TagKeeps from.region.now h s.region.now };

    ghost lawful = { λ s. tag_lawful s.region.now };

    ghost begins = { λ s. tag_begins s.region.now };
}

// What every heap owes is said again where a call says more: `chunks` is what it leaves of the chunks and of the bytes, whatever the region held. A refused call writes nothing.
impl<'r> Heap for BoundaryTag<'r> {
    fn span(&self) -> u32 {
        usable(self.region)
    }

    fn offer(&self, n: u32) -> Result<(u32, u32), Fault> {
        self.room(n).map(|offer| offer.block())
    }

    fn find(&self, a: u32) -> Option<(u32, u32)> {
        Chunks::new(self.region, 0)
            .find(|chunk| chunk.covers(a))
            .map(|chunk| chunk.block())
    }

    // The tests of get and fill are shared; what is left of either is one access, no shorter in a function for all bottoms.
    fn get(&self, a: u32) -> Result<u8, Fault> {
        check_get(self.find(a), a, Kind::BoundaryTag)?;
        Ok(self.region[a as usize])
    }

    fn allocate(&mut self, n: u32) -> Result<(u32, u32), Fault>
        ensures answer { result ≡ (tag_means self.old.region.now).offer n }
        ensures after { Allocates (tag_means self.old.region.now) (tag_means self.new.region.now) result }
        ensures kept { Kept (λ from h s. TagKeeps from.region.now h s.region.now) (after_allocate n result) self.old self.new }
        ensures chunks { Grants self.old.region.now self.new.region.now result }
    {
        let offer = self.room(n)?;
        self.grant(offer);
        Ok(offer.block())
    }

    fn free(&mut self, a: u32) -> Result<(), Fault>
        ensures answer { MayFree (tag_means self.old.region.now).kind (tag_means self.old.region.now).live a result }
        ensures after { Frees a (tag_means self.old.region.now) (tag_means self.new.region.now) result }
        ensures kept { Kept (λ from h s. TagKeeps from.region.now h s.region.now) (after_free a result) self.old self.new }
        ensures chunks { Releases a self.old.region.now self.new.region.now result }
    {
        check_free(self.find(a), a, Kind::BoundaryTag)?;
        self.joined(a).write(self.region);
        Ok(())
    }

    fn fill(&mut self, a: u32, c: u32, b: u8) -> Result<(), Fault>
        ensures answer { MayFill (tag_means self.old.region.now).kind (tag_means self.old.region.now).live a c result }
        ensures after { Fills a c b (tag_means self.old.region.now) (tag_means self.new.region.now) result }
        ensures kept { Kept (λ from h s. TagKeeps from.region.now h s.region.now) (after_fill a c b result) self.old self.new }
        ensures chunks { Paints a c b self.old.region.now self.new.region.now result }
    {
        check_fill(self.find(a), a, c, Kind::BoundaryTag)?;
        paint(self.region, a, c, b);
        Ok(())
    }

    // This heap holds nothing back.
    fn relief(&mut self) {}
}
