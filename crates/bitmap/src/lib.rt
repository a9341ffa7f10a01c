// A bitmap heap: it hands out whole cells of a lent region, and knows by two maps which cells are used and which begin a block.
#![tactic(auto)]

ghost use Rattle.std.specs.Prelude.{◌≡◌, ℕ, false, length};
ghost use Rattle.heap.specs.Histories.{after_allocate, after_free, Kept};
ghost use Rattle.heap.specs.Meaning.{NothingLive, MayFree, Allocates, Frees};
ghost use Rattle.bitmap.specs.Cells.{used_in, first_in, cells_of, bitmap_means, Takes, Releases, BitmapKeeps};
ghost use Rattle.bitmap.specs.Laws.{bitmap_lawful};
ghost use Rattle.bitmap.specs.Keeping.{bitmap_begins};

mod bits;
mod maps;

use crate::maps::Maps;
use heap::checks::{admit, begun_at, check_fill, check_free, check_get};
use heap::fault::{Cause, Fault, Kind};
use heap::interface::{Heap, LARGEST_SIZE, Meant};
use region::{paint, used_span};

// The length of a cell in bytes.
const CELL: u32 = 64;

// Blocks are whole cells; the maps have one bit for each cell.
#[derive(Drop)]
pub struct Bitmap<'r> {
    region: &'r mut [u8],
    maps: Maps,
}

impl<'r> Bitmap<'r> {
    pub fn new(region: &'r mut [u8]) -> Bitmap<'r>
        ensures region { result.region.now ≡ region.old }
        ensures used { (x : ℕ) → used_in result.maps x ≡ false }
        ensures first { (x : ℕ) → first_in result.maps x ≡ false }
        ensures nothing { NothingLive (bitmap_means result.region.now (used_in result.maps) (first_in result.maps)) }
    {
        let maps = Maps::default();
        Bitmap { region, maps }
    }

    // How many whole cells fit into the first 65,536 bytes of the region.
    fn cells(&self) -> u32
        ensures { result ≡ cells_of (length self.now.region.now) }
    {
        used_span(self.region) / CELL
    }
}

impl<'r> Meant for Bitmap<'r> {
    ghost means = { λ s. bitmap_means s.region.now (used_in s.maps) (first_in s.maps) };

    ghost keeps = { λ from h s. BitmapKeeps from.region.now (used_in from.maps) (first_in from.maps) h s.region.now (used_in s.maps) (first_in s.maps) };

    ghost lawful = { λ s. bitmap_lawful s.region.now (used_in s.maps) (first_in s.maps) };

    ghost begins = { λ s. bitmap_begins s.region.now (used_in s.maps) (first_in s.maps) };
}

// What every heap owes is said again where a call says more: `maps` is what it leaves of the two maps, whatever they were, and that a refused one leaves them.
impl<'r> Heap for Bitmap<'r> {
    fn span(&self) -> u32 {
        CELL * self.cells()
    }

    fn offer(&self, n: u32) -> Result<(u32, u32), Fault> {
        let wanted = admit(n, LARGEST_SIZE, Kind::Bitmap)?.div_ceil(CELL);
        self.maps
            .lowest_run(self.cells(), wanted)
            .map(|i| (CELL * i, CELL * wanted))
            .ok_or_else(|| Fault::new(Cause::Full, Kind::Bitmap, n))
    }

    fn find(&self, a: u32) -> Option<(u32, u32)> {
        let cells = self.cells();
        let cell = a / CELL;
        if cell >= cells {
            return None;
        }
        let start = self.maps.back(cell);
        if !self.maps.begins(start) {
            return None;
        }
        let end = self.maps.ahead(cells, start + 1);
        Some((CELL * start, CELL * (end - start)))
    }

    // The tests of get and fill are shared; what is left of either is one access, no shorter in a function for all bottoms.
    fn get(&self, a: u32) -> Result<u8, Fault> {
        check_get(self.find(a), a, Kind::Bitmap)?;
        Ok(self.region[a as usize])
    }

    fn allocate(&mut self, n: u32) -> Result<(u32, u32), Fault>
        ensures answer { result ≡ (bitmap_means self.old.region.now (used_in self.old.maps) (first_in self.old.maps)).offer n }
        ensures after { Allocates (bitmap_means self.old.region.now (used_in self.old.maps) (first_in self.old.maps)) (bitmap_means self.new.region.now (used_in self.new.maps) (first_in self.new.maps)) result }
        ensures kept { Kept (λ from h s. BitmapKeeps from.region.now (used_in from.maps) (first_in from.maps) h s.region.now (used_in s.maps) (first_in s.maps)) (after_allocate n result) self.old self.new }
        ensures maps { Takes (used_in self.old.maps) (first_in self.old.maps) (used_in self.new.maps) (first_in self.new.maps) result }
    {
        let (start, length) = self.offer(n)?;
        self.maps.mark(start / CELL, length / CELL);
        paint(self.region, start, length, 0);
        Ok((start, length))
    }

    fn free(&mut self, a: u32) -> Result<(), Fault>
        ensures answer { MayFree (bitmap_means self.old.region.now (used_in self.old.maps) (first_in self.old.maps)).kind (bitmap_means self.old.region.now (used_in self.old.maps) (first_in self.old.maps)).live a result }
        ensures after { Frees a (bitmap_means self.old.region.now (used_in self.old.maps) (first_in self.old.maps)) (bitmap_means self.new.region.now (used_in self.new.maps) (first_in self.new.maps)) result }
        ensures kept { Kept (λ from h s. BitmapKeeps from.region.now (used_in from.maps) (first_in from.maps) h s.region.now (used_in s.maps) (first_in s.maps)) (after_free a result) self.old self.new }
        ensures maps { Releases (cells_of (length self.old.region.now)) a (used_in self.old.maps) (first_in self.old.maps) (used_in self.new.maps) (first_in self.new.maps) result }
    {
        let found = self.find(a);
        check_free(found, a, Kind::Bitmap)?;
        self.maps.unmark(a / CELL, begun_at(found, a) / CELL);
        Ok(())
    }

    fn fill(&mut self, a: u32, c: u32, b: u8) -> Result<(), Fault> {
        check_fill(self.find(a), a, c, Kind::Bitmap)?;
        paint(self.region, a, c, b);
        Ok(())
    }

    // This heap holds nothing back.
    fn relief(&mut self) {}
}
