// A bump heap: it hands out a lent region's bytes in turn, and starts over once all blocks are given back.
#![tactic(auto)]

ghost use Rattle.std.specs.Prelude.{◌≡◌, ◌+◌, ◌<◌, ◌≤◌, not, length};
ghost use Rattle.heap.specs.Histories.{after_allocate, after_free, after_fill, Kept};
ghost use Rattle.heap.specs.Meaning.{NothingLive, MayFree, MayFill, Allocates, Frees, Fills};
ghost use Rattle.region.specs.Bytes.{span_of};
ghost use Rattle.bump.specs.Table.{table, placed, live_in, end_in, none_live, bump_offer, bump_means, Headed, Strike, Grants, Strikes, Paints, BumpKeeps};
ghost use Rattle.bump.specs.Laws.{bump_lawful, bump_begins};
ghost use Rattle.bump.specs.Headers.{left};

mod headers;

use crate::headers::{Header, Headers, State};
use heap::checks::{admit, check_fill, check_free, check_get};
use heap::fault::{Cause, Fault, Kind};
use heap::interface::{Heap, LARGEST_SIZE, Meant};
use region::{paint, put_word, used_span};

// Blocks lie below the cursor, each behind a header of eight bytes; the next one goes there.
#[derive(Drop)]
pub struct Bump<'r> {
    region: &'r mut [u8],
    cursor: u32,
}

impl<'r> Bump<'r> {
    pub fn new(region: &'r mut [u8]) -> Bump<'r>
        ensures region { result.region.now ≡ region.old }
        ensures cursor { result.cursor ≡ 0 }
        ensures nothing { NothingLive (bump_means result.region.now result.cursor) }
    {
        Bump { region, cursor: 0 }
    }

    fn headers(&self) -> Headers<'_>
        ensures { left result ≡ placed (table self.now.region.now self.now.cursor) 0 }
    {
        Headers::new(self.region, self.cursor)
    }

    // Where the last block ends.
    fn end(&self) -> u32
        ensures value { result ≡ end_in (table self.now.region.now self.now.cursor) 0 }
        ensures low { result ≤ 65536 }
    {
        self.headers().last().map_or(0, Header::end)
    }

    fn any_live(&self) -> bool
        ensures { result ≡ not (none_live (table self.now.region.now self.now.cursor)) }
    {
        self.headers().any(Header::is_live)
    }

    // The block for a size that passed the tests. Nothing is offered behind headers that do not lead up to the cursor: their blocks may still be in use.
    fn room(&self, n: u32) -> Result<(u32, u32), Fault>
        requires { n ≤ 32768 }
        ensures { result ≡ bump_offer (span_of (length self.now.region.now)) (table self.now.region.now self.now.cursor) self.now.cursor n }
    {
        let size = n.next_multiple_of(8);
        if self.end() != self.cursor || self.cursor + 8 + size > self.span() {
            return Err(Fault::new(Cause::Full, Kind::Bump, n));
        }
        Ok((self.cursor + 8, size))
    }

    // Writes the header of a live block at the cursor, clears the block, and moves the cursor to its end.
    fn grant(&mut self, size: u32)
        requires { (self.old.cursor + 8 + size ≤ length self.old.region.now) × (self.old.cursor + 8 + size ≤ 65536) }
        ensures headed { Headed self.old.cursor size self.old.region.now self.new.region.now }
        ensures moved { self.new.cursor ≡ self.old.cursor + 8 + size }
    {
        let start = self.cursor + 8;
        put_word(self.region, self.cursor, size);
        put_word(self.region, self.cursor + 4, State::Live as u32);
        paint(self.region, start, size, 0);
        self.cursor = start + size;
    }

    // Marks the block at `a` as ended, and moves the cursor back to 0 once nothing is live.
    fn strike(&mut self, a: u32)
        requires { 0 < live_in (table self.old.region.now self.old.cursor) 0 a }
        ensures { Strike a self.old.cursor self.new.cursor self.old.region.now self.new.region.now }
    {
        put_word(self.region, a - 4, State::Ended as u32);
        if !self.any_live() {
            self.cursor = 0;
        }
    }
}

impl<'r> Meant for Bump<'r> {
    ghost means = { λ s. bump_means s.region.now s.cursor };

    ghost keeps = { λ from h s. BumpKeeps from.region.now from.cursor h s.region.now s.cursor };

    ghost lawful = { λ s. bump_lawful s.region.now s.cursor };

    ghost begins = { λ s. bump_begins s.region.now s.cursor };
}

// What every heap owes is said again where a call says more: `table` is what it leaves of headers and cursor, whatever the region held. A refused call writes nothing.
impl<'r> Heap for Bump<'r> {
    fn span(&self) -> u32 {
        used_span(self.region)
    }

    fn offer(&self, n: u32) -> Result<(u32, u32), Fault> {
        let size = admit(n, LARGEST_SIZE, Kind::Bump)?;
        self.room(size)
    }

    fn find(&self, a: u32) -> Option<(u32, u32)> {
        self.headers()
            .find(|header| header.is_live() && header.covers(a))
            .map(Header::block)
    }

    // The tests of get and fill are shared; what is left of either is one access, no shorter in a function for all bottoms.
    fn get(&self, a: u32) -> Result<u8, Fault> {
        check_get(self.find(a), a, Kind::Bump)?;
        Ok(self.region[a as usize])
    }

    fn allocate(&mut self, n: u32) -> Result<(u32, u32), Fault>
        ensures answer { result ≡ (bump_means self.old.region.now self.old.cursor).offer n }
        ensures after { Allocates (bump_means self.old.region.now self.old.cursor) (bump_means self.new.region.now self.new.cursor) result }
        ensures kept { Kept (λ from h s. BumpKeeps from.region.now from.cursor h s.region.now s.cursor) (after_allocate n result) self.old self.new }
        ensures table { Grants self.old.cursor self.new.cursor self.old.region.now self.new.region.now result }
    {
        let block = self.offer(n)?;
        self.grant(block.1);
        Ok(block)
    }

    fn free(&mut self, a: u32) -> Result<(), Fault>
        ensures answer { MayFree (bump_means self.old.region.now self.old.cursor).kind (bump_means self.old.region.now self.old.cursor).live a result }
        ensures after { Frees a (bump_means self.old.region.now self.old.cursor) (bump_means self.new.region.now self.new.cursor) result }
        ensures kept { Kept (λ from h s. BumpKeeps from.region.now from.cursor h s.region.now s.cursor) (after_free a result) self.old self.new }
        ensures table { Strikes a self.old.cursor self.new.cursor self.old.region.now self.new.region.now result }
    {
        check_free(self.find(a), a, Kind::Bump)?;
        self.strike(a);
        Ok(())
    }

    fn fill(&mut self, a: u32, c: u32, b: u8) -> Result<(), Fault>
        ensures answer { MayFill (bump_means self.old.region.now self.old.cursor).kind (bump_means self.old.region.now self.old.cursor).live a c result }
        ensures after { Fills a c b (bump_means self.old.region.now self.old.cursor) (bump_means self.new.region.now self.new.cursor) result }
        ensures kept { Kept (λ from h s. BumpKeeps from.region.now from.cursor h s.region.now s.cursor) (after_fill a c b result) self.old self.new }
        ensures table { Paints a c b self.old.cursor self.new.cursor self.old.region.now self.new.region.now result }
    {
        check_fill(self.find(a), a, c, Kind::Bump)?;
        paint(self.region, a, c, b);
        Ok(())
    }

    // This heap holds nothing back.
    fn relief(&mut self) {}
}
