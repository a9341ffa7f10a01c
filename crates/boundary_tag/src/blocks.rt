// What the calls of a boundary tag heap do to its chunks.
ghost use Rattle.std.specs.Prelude.{◌≡◌, ◌+◌, ◌<◌, ◌≤◌, length};
ghost use Rattle.boundary_tag.specs.Chunks.{tag_span, walk, chunks, live_in, free_length, low_length, Carved};
ghost use Rattle.boundary_tag.specs.Placed.{seen, joined_at, Picks};

use crate::BoundaryTag;
use crate::chunks::{Chunk, Chunks, Offer};
use crate::tags::{State, Tag};
use heap::checks::admit;
use heap::fault::{Cause, Fault, Kind};
use heap::interface::LARGEST_SIZE;
use region::paint;

impl<'r> BoundaryTag<'r> {
    // What is granted for `n` bytes, of the lowest free chunk that has room; or why nothing is.
    pub(crate) fn room(&self, n: u32) -> Result<Offer, Fault>
        ensures { Picks self.now.region.now n result }
    {
        let size = admit(n, LARGEST_SIZE, Kind::BoundaryTag)?.next_multiple_of(8);
        let chunk = Chunks::new(self.region, 0)
            .find(|chunk| chunk.has_room(size))
            .ok_or_else(|| Fault::new(Cause::Full, Kind::BoundaryTag, n))?;
        Ok(chunk.offer(size))
    }

    // Grants the block, and clears it. What remains of its free chunk becomes a free chunk.
    pub(crate) fn grant(&mut self, offer: Offer)
        requires { offer.chunk.start + offer.chunk.length ≤ length self.old.region.now }
        ensures { Carved offer.chunk.start offer.chunk.length offer.size self.old.region.now self.new.region.now }
    {
        let Offer { chunk, size } = offer;
        let live = Chunk {
            start: chunk.start,
            length: size + 16,
            state: State::Live,
        };
        live.write(self.region);
        paint(self.region, live.start + 8, size, 0);
        if live.length == chunk.length {
            return;
        }
        let rest = Chunk {
            start: live.end(),
            length: chunk.length - live.length,
            state: State::Free,
        };
        rest.write(self.region);
    }

    // The length of the free chunk that ends at `p`, by its last tag; 0 where none does, since it is added.
    fn free_before(&self, p: u32) -> u32
        requires { (p ≤ length self.now.region.now) × (p ≤ 65536) }
        ensures { result ≡ low_length self.now.region.now p }
    {
        if p < 8 {
            return 0;
        }
        let last = Tag::read(self.region, p - 8);
        match State::of(last.state) {
            Some(State::Free) => last.length,
            _ => 0,
        }
    }

    // The length of the free chunk at `p`; 0 where there is none, since it is added.
    fn free_behind(&self, p: u32) -> u32
        ensures { result ≡ free_length (walk self.now.region.now (tag_span (length self.now.region.now)) p) }
    {
        Chunks::new(self.region, p)
            .next()
            .map_or(0, |chunk| chunk.free_length())
    }

    // The free chunk that the live block at `a` leaves: joined with a free one directly before and directly behind. Both are reached by their tags, so that the chunks are walked once.
    pub(crate) fn joined(&self, a: u32) -> Chunk
        requires { 0 < live_in (chunks self.now.region.now) 0 a }
        ensures value { seen result ≡ joined_at self.now.region.now a }
        ensures inside { result.start + result.length ≤ length self.now.region.now }
    {
        let p = a - 8;
        let low = self.free_before(p);
        let size = Tag::read(self.region, p).length;
        let high = size + self.free_behind(p + size);
        Chunk {
            start: p - low,
            length: low + high,
            state: State::Free,
        }
    }
}
