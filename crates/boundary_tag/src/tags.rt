// Tags: a chunk's length and its state, in eight bytes. Where and how a tag is stored is known here alone.
ghost use Rattle.std.specs.Prelude.{◌≡◌, ◌+◌, ◌≤◌, length};
ghost use Rattle.boundary_tag.specs.Chunks.{tag_at, Tagged};
ghost use Rattle.boundary_tag.specs.States.{state_number, state_of, tag_pair};

use region::{put_word, word};

// The states of a chunk.
#[derive(Clone, Copy, PartialEq, Eq)]
pub(crate) enum State {
    Free = 0,
    Live = 1,
}

impl State {
    // The state that a tag's number stands for, if it does for one. No TryFrom: nothing would read its error. A header of a bump heap has other states.
    pub(crate) fn of(number: u32) -> Option<State>
        ensures { result ≡ state_of number }
    {
        match number {
            0 => Some(State::Free),
            1 => Some(State::Live),
            _ => None,
        }
    }
}

// A tag as it stands in a region: any two numbers.
#[derive(Clone, Copy, PartialEq, Eq)]
pub(crate) struct Tag {
    pub(crate) length: u32,
    pub(crate) state: u32,
}

impl Tag {
    pub(crate) fn new(length: u32, state: State) -> Tag
        ensures { tag_pair result ≡ (length, state_number state) }
    {
        Tag {
            length,
            state: state as u32,
        }
    }

    // The tag at `p`.
    #[tactic(auto, unfolding(crate::specs::Chunks::tag_at))]
    pub(crate) fn read(region: &[u8], p: u32) -> Tag
        requires { (p + 8 ≤ length region.now) × (p + 8 ≤ 65536) }
        ensures { tag_pair result ≡ tag_at region.now p }
    {
        Tag {
            length: word(region, p),
            state: word(region, p + 4),
        }
    }

    // Writes the tag at `p`.
    pub(crate) fn write(self, region: &mut [u8], p: u32)
        requires { (p + 8 ≤ length region.old) × (p + 8 ≤ 65536) }
        ensures { Tagged p self.length self.state region.old region.new }
    {
        put_word(region, p, self.length);
        put_word(region, p + 4, self.state);
    }
}
