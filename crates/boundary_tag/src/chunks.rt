// The chunks of a region, one after the other, and the writing of one.
ghost use Rattle.std.specs.Prelude.{◌≡◌, ◌+◌, ◌-◌, ◌<◌, ◌≤◌, length, option_map};
ghost use Rattle.boundary_tag.specs.Chunks.{tag_span, part_of, chunk_at, Written};
ghost use Rattle.boundary_tag.specs.States.{state_number};

use crate::tags::{State, Tag};
use region::used_span;

// How much of the region is used: nothing where no chunk fits.
#[tactic(auto, unfolding(crate::specs::Chunks::tag_span))]
pub(crate) fn usable(region: &[u8]) -> u32
    ensures { result ≡ tag_span (length region.now) }
{
    let span = used_span(region);
    if span < 24 {
        return 0;
    }
    span
}

// A chunk in its place.
#[derive(Clone, Copy)]
pub(crate) struct Chunk {
    pub(crate) start: u32,
    pub(crate) length: u32,
    pub(crate) state: State,
    ghost some: { 24 ≤ length },
    ghost inside: { start + length ≤ 65536 },
}

impl Chunk {
    ghost use Rattle.boundary_tag.specs.Placed.{seen, covers, has_room, free_part};

    pub(crate) fn end(self) -> u32
        ensures { result ≡ self.start + self.length }
    {
        self.start + self.length
    }

    // The block between its tags, as its address and length.
    pub(crate) fn block(self) -> (u32, u32)
        ensures { result ≡ (self.start + 8, self.length - 16) }
    {
        (self.start + 8, self.length - 16)
    }

    // Whether it is live and its block covers `a`.
    pub(crate) fn covers(self, a: u32) -> bool
        ensures { result ≡ covers a (seen self) }
    {
        let (start, length) = self.block();
        self.state == State::Live && (start..start + length).contains(&a)
    }

    // Whether it is free and has room for a block of `size` bytes.
    pub(crate) fn has_room(self, size: u32) -> bool
        ensures { result ≡ has_room size (seen self) }
    {
        let (_, length) = self.block();
        self.state == State::Free && size <= length
    }

    // Its length if it is free; else 0, since it is added.
    pub(crate) fn free_length(self) -> u32
        ensures { result ≡ free_part (seen self) }
    {
        match self.state {
            State::Free => self.length,
            State::Live => 0,
        }
    }

    // What is granted of it for `size` bytes. The rest stays a free chunk if it is 24 or more.
    pub(crate) fn offer(self, size: u32) -> Offer
        requires some { 8 ≤ size }
        requires room { size + 16 ≤ self.length }
        ensures chunk { result.chunk ≡ self }
        ensures size { result.size ≡ part_of self.length size }
    {
        if self.length - size < 40 {
            return Offer {
                chunk: self,
                size: self.length - 16,
            };
        }
        Offer { chunk: self, size }
    }

    // Writes both its tags.
    pub(crate) fn write(self, region: &mut [u8])
        requires { self.start + self.length ≤ length region.old }
        ensures { Written self.start self.length (state_number self.state) region.old region.new }
    {
        let tag = Tag::new(self.length, self.state);
        tag.write(region, self.start);
        tag.write(region, self.start + (self.length - 8));
    }
}

// A free chunk, and the length of the block that is granted of it: behind the block's chunk there is nothing left, or a chunk.
#[derive(Clone, Copy)]
pub(crate) struct Offer {
    pub(crate) chunk: Chunk,
    pub(crate) size: u32,
    ghost some: { 8 ≤ size },
    ghost most: { size + 16 ≤ chunk.length },
    ghost rest: { size + 16 < chunk.length → size + 40 ≤ chunk.length },
}

impl Offer {
    // The block, as its address and length.
    pub(crate) fn block(self) -> (u32, u32)
        ensures { result ≡ (self.chunk.start + 8, self.size) }
    {
        (self.chunk.start + 8, self.size)
    }
}

// The chunks of a region from `at` on.
#[derive(Drop)]
pub(crate) struct Chunks<'a> {
    region: &'a [u8],
    span: u32,
    at: u32,
    ghost whole: { span ≡ tag_span (length region.now) },
}

impl<'a> Chunks<'a> {
    ghost use Rattle.boundary_tag.specs.Placed.{seen, found_at};

    pub(crate) fn new(region: &'a [u8], at: u32) -> Chunks<'a>
        ensures region { result.region.now ≡ region.now }
        ensures at { result.at ≡ at }
    {
        Chunks {
            region,
            span: usable(region),
            at,
        }
    }

    // The chunk at `at`; none where the chunks end.
    #[tactic(auto, using(crate::specs::Laws::span_within, crate::specs::Laws::span_most))]
    fn first(&self) -> Option<Chunk>
        ensures { option_map seen result ≡ found_at self.now.at (chunk_at self.now.region.now self.now.span self.now.at) }
    {
        let room = self.span.saturating_sub(self.at);
        if room < 24 {
            return None;
        }
        let tag = Tag::read(self.region, self.at);
        let state = State::of(tag.state)?;
        if tag.length < 24 || room < tag.length || tag.length % 8 != 0 {
            return None;
        }
        let last = Tag::read(self.region, self.at + (tag.length - 8));
        if last != tag {
            return None;
        }
        Some(Chunk {
            start: self.at,
            length: tag.length,
            state,
        })
    }
}

impl<'a> Iterator for Chunks<'a> {
    ghost use Rattle.std.specs.Iterator.{YieldsFirstBy, item_count};
    ghost use Rattle.boundary_tag.specs.Placed.{seen, ahead};

    type Item = Chunk;

    ghost next_gives = { YieldsFirstBy seen ahead };

    ghost remaining = { item_count ahead };

    #[tactic(auto, using(crate::proofs::Reading::ahead_none, crate::proofs::Reading::ahead_some), unfolding(crate::specs::Placed::ahead))]
    fn next(&mut self) -> Option<Chunk> {
        let chunk = self.first()?;
        self.at = chunk.end();
        Some(chunk)
    }
}
