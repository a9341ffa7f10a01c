// The slots of a replay, one for each id.
ghost use Rattle.std.specs.Prelude.{◌≡◌, replicate, slice_index_or, slice_set};
ghost use Rattle.player.specs.declared.slots.Slot.TheVariants.{Empty};

// What an id holds: nothing, or a block by its address and length. An enum of its own, as the rules of a replay have it: a slot is empty or holds a block, and says so where it is read.
#[derive(Clone, Copy, PartialEq, Eq, Debug)]
pub enum Slot {
    Empty,
    Held(u32, u32),
}

#[derive(Drop)]
pub struct Slots {
    pub table: [Slot; 256],
}

impl Slots {
    pub fn new() -> Slots
        ensures { result.table ≡ replicate 256 Empty }
    {
        Slots {
            table: [Slot::Empty; 256],
        }
    }

    pub fn at(&self, id: u8) -> Slot
        ensures { result ≡ slice_index_or self.now.table id Empty }
    {
        self.table[usize::from(id)]
    }

    // Turns the slot of an id into another.
    pub fn put(&mut self, id: u8, slot: Slot)
        ensures { self.new.table ≡ slice_set self.old.table id slot }
    {
        self.table[usize::from(id)] = slot;
    }
}
