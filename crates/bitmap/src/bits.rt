// One bit for each of 1,024 cells, in words of 64.
ghost use Rattle.std.specs.Prelude.{◌≡◌, ◌+◌, ◌<◌, ◌≤◌};
ghost use Rattle.bitmap.specs.Words.{bit_in, Put};

#[derive(Default, Drop)]
pub(crate) struct Bits {
    words: [u64; 16],
}

impl Bits {
    // The bit of cell `i`, which is clear past the last.
    #[tactic(auto, unfolding(crate::specs::Words::bit_in))]
    pub(crate) fn has(&self, i: u32) -> bool
        ensures { result ≡ bit_in self.now.words i }
    {
        self.words
            .get((i / 64) as usize)
            .is_some_and(|w| (w >> (i % 64)) % 2 == 1)
    }

    // Sets the bit of cell `i` to `b`. Past the last cell there is none to set: a total form would be no plainer, since what it promises would stand under the same premise.
    pub(crate) fn put(&mut self, i: u32, b: bool)
        requires { i < 1024 }
        ensures { Put i 1 b self.old.words self.new.words }
    {
        if self.has(i) != b {
            self.words[(i / 64) as usize] ^= 1 << (i % 64);
        }
    }

    // Sets the bits of the `count` cells from `i` on to `b`; there have to be such cells, as for `put`.
    pub(crate) fn put_run(&mut self, i: u32, count: u32, b: bool)
        requires { i + count ≤ 1024 }
        ensures { Put i count b self.old.words self.new.words }
    {
        for x in i..i + count {
            self.put(x, b);
        }
    }
}
