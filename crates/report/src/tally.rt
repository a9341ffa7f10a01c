// The outcomes of a replay's frames, and a tally of them.
ghost use Rattle.std.specs.Prelude.{◌≡◌, ◌+◌, ◌<◌, max, List, [], ◌∷◌, ◌++◌, length};
ghost use Rattle.report.specs.declared.tally.Outcome.TheVariants.{Refused};
ghost use Rattle.report.specs.Tallies.{load_after, kinds_of, tally_of, Loadable, Countable};

use heap::fault::Fault;

// What came of a frame. Not a Result: a second enum would stand in its Ok, and whoever matches on an outcome would match twice.
#[derive(Clone, Copy, PartialEq, Eq, Debug)]
pub enum Outcome {
    // an allocate: the length of the block that was granted
    Granted(u32),
    // a free: the length of the block that ended
    Freed(u32),
    // a fill or a relief
    Done,
    Refused(Fault),
}

// How many blocks, and how many bytes, are in slots.
#[derive(Clone, Copy, PartialEq, Eq, Debug, Default)]
pub struct Load {
    pub blocks: u16,
    pub bytes: u32,
}

// What a report tells of the outcomes so far. Counts stop at the largest number of their type.
#[derive(Clone, Copy, PartialEq, Eq, Debug, Default)]
pub struct Tally {
    pub frames: u32,
    pub granted: u32,
    pub freed: u32,
    pub refused: u32,
    // in slots now
    pub load: Load,
    // the most at any moment, of blocks and of bytes
    pub peak: Load,
    // refusals by the number of their kind
    pub kinds: [u32; 12],
    // the first refused frame: its number, and why
    pub first: Option<(u32, Fault)>,
}

impl Load {
    // What is in slots after one frame more.
    fn after(self, outcome: Outcome) -> Load
        ensures { Loadable (load_after self outcome) → result ≡ load_after self outcome }
    {
        match outcome {
            Outcome::Granted(length) => Load {
                blocks: self.blocks.saturating_add(1),
                bytes: self.bytes.saturating_add(length),
            },
            Outcome::Freed(length) => Load {
                blocks: self.blocks.saturating_sub(1),
                bytes: self.bytes.saturating_sub(length),
            },
            Outcome::Done | Outcome::Refused(_) => self,
        }
    }

    // The larger number of blocks, and the larger number of bytes.
    fn most(self, other: Load) -> Load
        ensures { result ≡ record { blocks = max self.blocks other.blocks; bytes = max self.bytes other.bytes } }
    {
        Load {
            blocks: self.blocks.max(other.blocks),
            bytes: self.bytes.max(other.bytes),
        }
    }
}

// Counts a refusal by the kind of its fault.
fn count_kind(kinds: &mut [u32; 12], fault: Fault)
    ensures { (os : List Outcome) → length os + 1 < 4294967296 → kinds.old ≡ kinds_of os → kinds.new ≡ kinds_of (os ++ (Refused fault ∷ [])) }
{
    let kind = usize::from(fault.kind.number());
    kinds[kind] = kinds[kind].saturating_add(1);
}

impl Tally {
    // The tally of no frames.
    pub fn new() -> Tally
        ensures { result ≡ tally_of [] }
    {
        Tally::default()
    }

    // The tally with one frame more.
    pub fn note(&mut self, outcome: Outcome)
        ensures { (os : List Outcome) → Countable (os ++ (outcome ∷ [])) → self.old ≡ tally_of os → self.new ≡ tally_of (os ++ (outcome ∷ [])) }
    {
        self.frames = self.frames.saturating_add(1);
        match outcome {
            Outcome::Granted(_) => self.granted = self.granted.saturating_add(1),
            Outcome::Freed(_) => self.freed = self.freed.saturating_add(1),
            Outcome::Done => {}
            Outcome::Refused(fault) => {
                self.refused = self.refused.saturating_add(1);
                count_kind(&mut self.kinds, fault);
                self.first = self.first.or(Some((self.frames, fault)));
            }
        }
        self.load = self.load.after(outcome);
        self.peak = self.peak.most(self.load);
    }
}
