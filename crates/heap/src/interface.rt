// The heap interface: what a heap means, and what each call on one owes.
ghost use Rattle.std.specs.Prelude.{◌≡◌, [], ◌∷◌};
ghost use Rattle.heap.specs.Histories.{History, after_allocate, after_free, after_fill, relieved, Kept};
ghost use Rattle.heap.specs.Meaning.{Meaning, Lawful, Stays, Finds, Gets, MayFree, MayFill, Allocates, Frees, Fills};

use crate::checks::begun_at;
use crate::fault::Fault;

// The largest size that any heap takes.
pub const LARGEST_SIZE: u32 = 32768;

// What a heap means, and what it keeps. These stand apart from the calls: in a trait without functions the two facts are members like the others, so that a layer's own may cite those of the heap below.
pub trait Meant {
    // the heap's meaning to its client
    ghost means: { Self → Meaning };

    // what the heap keeps by its own rules, from a state, over a history of accepted calls, to a later state
    ghost keeps: { Self → History → Self → Type 0 };

    ghost lawful: { (s : Self) → Lawful (means s) };

    ghost begins: { (s : Self) → keeps s [] s };
}

// A heap hands out blocks of a fixed span of addresses. Of each call that may change it, `answer` says what it answers, `after` what the heap means afterwards, and `kept` that what it has kept from any state over any history it still keeps with this call.
pub trait Heap: Meant {
    // How many addresses the heap has, from 0 on.
    fn span(&self) -> u32
        ensures { result ≡ (Self.Meant.means self.now).span };

    // The block that an allocate of `n` bytes would be granted now, or why it would be refused.
    fn offer(&self, n: u32) -> Result<(u32, u32), Fault>
        ensures { result ≡ (Self.Meant.means self.now).offer n };

    // The live block that covers `a`, as its address and length.
    fn find(&self, a: u32) -> Option<(u32, u32)>
        ensures { Finds (Self.Meant.means self.now).live a result };

    // The byte at `a`.
    fn get(&self, a: u32) -> Result<u8, Fault>
        ensures { Gets (Self.Meant.means self.now).kind (Self.Meant.means self.now).live (Self.Meant.means self.now).byte a result };

    // Grants the offered block, its bytes 0.
    fn allocate(&mut self, n: u32) -> Result<(u32, u32), Fault>
        ensures answer { result ≡ (Self.Meant.means self.old).offer n }
        ensures after { Allocates (Self.Meant.means self.old) (Self.Meant.means self.new) result }
        ensures kept { Kept Self.Meant.keeps (after_allocate n result) self.old self.new };

    // Ends the live block that begins at `a`.
    fn free(&mut self, a: u32) -> Result<(), Fault>
        ensures answer { MayFree (Self.Meant.means self.old).kind (Self.Meant.means self.old).live a result }
        ensures after { Frees a (Self.Meant.means self.old) (Self.Meant.means self.new) result }
        ensures kept { Kept Self.Meant.keeps (after_free a result) self.old self.new };

    // Sets the `c` bytes from `a` on to `b`.
    fn fill(&mut self, a: u32, c: u32, b: u8) -> Result<(), Fault>
        ensures answer { MayFill (Self.Meant.means self.old).kind (Self.Meant.means self.old).live a c result }
        ensures after { Fills a c b (Self.Meant.means self.old) (Self.Meant.means self.new) result }
        ensures kept { Kept Self.Meant.keeps (after_fill a c b result) self.old self.new };

    // Relief: every block that a layer holds back is handed down. It is never refused; offers may change.
    fn relief(&mut self)
        ensures after { Stays (Self.Meant.means self.old) (Self.Meant.means self.new) }
        ensures kept { Kept Self.Meant.keeps (λ h. relieved ∷ h) self.old self.new };
}

// The length of the live block that begins at `a`, 0 where none does: the meaning's `live` itself, and no Option of it.
pub fn length_at<H: Heap>(heap: &H, a: u32) -> u32
    ensures { result ≡ (H.Meant.means heap.now).live a }
{
    begun_at(heap.find(a), a)
}
