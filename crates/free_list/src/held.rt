// The table of held addresses: up to 16, no two alike, oldest first.
ghost use Rattle.std.specs.Prelude.{◌≡◌, ◌<◌, ◌≤◌, ◌==◌, true, false, [], length};
ghost use Rattle.arrayvec.specs.ArrayVec.{array_vec_len};
ghost use Rattle.free_list.specs.Holdings.{among, distinct, without, with_newest};

use arrayvec::ArrayVec;

// How many addresses the table has room for.
const MOST: usize = 16;

#[derive(Drop)]
pub(crate) struct Held {
    addresses: ArrayVec<u32, MOST>,
    ghost few: { length addresses.items ≤ 16 },
    ghost apart: { distinct addresses.items ≡ true },
}

impl Held {
    pub(crate) fn new() -> Held
        ensures { result.addresses.items ≡ [] }
    {
        Held {
            addresses: ArrayVec::new(),
        }
    }

    pub(crate) fn as_slice(&self) -> &[u32]
        ensures { result.now ≡ self.now.addresses.items }
    {
        self.addresses.as_slice()
    }

    pub(crate) fn is_full(&self) -> bool
        ensures full { result ≡ (length self.now.addresses.items == 16) }
        ensures most { length self.now.addresses.items ≤ 16 }
    {
        self.addresses.is_full()
    }

    pub(crate) fn contains(&self, a: u32) -> bool
        ensures { result ≡ among a self.now.addresses.items }
    {
        self.addresses.as_slice().contains(&a)
    }

    // Adds `a` as the newest.
    pub(crate) fn push(&mut self, a: u32)
        requires room { length self.old.addresses.items < 16 }
        requires fresh { among a self.old.addresses.items ≡ false }
        ensures { self.new.addresses.items ≡ with_newest self.old.addresses.items a }
    {
        self.addresses.push(a);
    }

    // Takes `a` out, if it is there; the others keep their order.
    pub(crate) fn remove(&mut self, a: u32)
        ensures { self.new.addresses.items ≡ without a self.old.addresses.items }
    {
        self.addresses.retain(|held| *held != a);
    }
}
