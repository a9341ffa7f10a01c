// The two maps of a bitmap heap: which cells are used, and which begin a block.
ghost use Rattle.std.specs.Prelude.{◌≡◌, ◌+◌, ◌<◌, ◌≤◌, not, ◌&&◌};
ghost use Rattle.bitmap.specs.Cells.{used_in, first_in, goes_on, Runs, Back, LowestRun, Marked, Unmarked};

use crate::bits::Bits;

// Two maps, as the rules of a bitmap heap have them. A block is a cell that is used and first, with the cells behind it that are used and not first.
#[derive(Default, Drop)]
pub(crate) struct Maps {
    used: Bits,
    first: Bits,
}

impl Maps {
    // Whether a block begins at cell `i`.
    pub(crate) fn begins(&self, i: u32) -> bool
        ensures { result ≡ (used_in self.now i && first_in self.now i) }
    {
        self.used.has(i) && self.first.has(i)
    }

    // Whether cell `i` goes on with the block before it.
    fn continues(&self, i: u32) -> bool
        ensures { result ≡ (used_in self.now i && not (first_in self.now i)) }
    {
        self.used.has(i) && !self.first.has(i)
    }

    // The cell where a block that has cell `i` would begin.
    pub(crate) fn back(&self, i: u32) -> u32
        ensures { Back (λ x. used_in self.now x && not (first_in self.now x)) i result }
    {
        for before in (0..i).rev() {
            if !self.continues(before + 1) {
                return before + 1;
            }
        }
        0
    }

    // The first cell from `i` on, of so many, that does not go on with the block before it.
    pub(crate) fn ahead(&self, cells: u32, i: u32) -> u32
        requires { i ≤ cells }
        ensures runs { Runs (goes_on (used_in self.now) (first_in self.now) cells) i result }
        ensures below { result ≤ cells }
    {
        for cell in i..cells {
            if !self.continues(cell) {
                return cell;
            }
        }
        cells
    }

    // The lowest cell, of so many, from which `wanted` free ones can make a block, in one pass.
    pub(crate) fn lowest_run(&self, cells: u32, wanted: u32) -> Option<u32>
        requires { 0 < wanted }
        ensures { LowestRun (used_in self.now) (first_in self.now) cells wanted result }
    {
        // how many of the cells before the one that is looked at are free, in a row
        let mut run = 0;
        for i in 0..cells {
            let end = i + 1;
            run = if self.used.has(i) { 0 } else { run + 1 };
            if run >= wanted && !(end < cells && self.continues(end)) {
                return Some(end - wanted);
            }
        }
        None
    }

    // Makes a block of the `count` cells from `i` on; there have to be such cells, as for `Bits::put`.
    pub(crate) fn mark(&mut self, i: u32, count: u32)
        requires { (i + count ≤ 1024) × (0 < count) }
        ensures { Marked i count (used_in self.old) (first_in self.old) (used_in self.new) (first_in self.new) }
    {
        self.used.put_run(i, count, true);
        self.first.put_run(i, count, false);
        self.first.put(i, true);
    }

    // Frees the `count` cells from `start` on; there have to be such cells, as for `Bits::put`.
    pub(crate) fn unmark(&mut self, start: u32, count: u32)
        requires { start + count ≤ 1024 }
        ensures { Unmarked start count (used_in self.old) (first_in self.old) (used_in self.new) (first_in self.new) }
    {
        self.used.put_run(start, count, false);
        self.first.put_run(start, count, false);
    }
}
