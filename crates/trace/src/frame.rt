// Frames of a trace, six bytes each: read, written, and what they ask for.
ghost use Rattle.std.specs.Prelude.{◌≡◌, ◌<◌, [], ◌∷◌, ◌++◌, length, Some, None};
ghost use Rattle.trace.specs.Frames.{frame_bytes, frames_of, frames_left, pile_number, pile_of, action_of, id_of};

use heap::fault::Cause;

// Any six bytes are a frame, so its kind is a number here; `pile` and `action` tell what it asks for. Its number is written highest byte first.
#[derive(Clone, Copy, PartialEq, Eq, Debug)]
pub struct Frame {
    pub kind: u8,
    pub id: u8,
    pub number: u32,
}

// The pile that a head names by its number.
#[derive(Clone, Copy, PartialEq, Eq, Debug)]
pub enum Pile {
    // one bump heap
    Bump = 1,
    // serves freed blocks again: a free list over a rounding over a bitmap
    Reusing = 2,
    // splits by size: a segregator of a free list and a rationed fallback
    Splitting = 3,
}

impl Pile {
    pub fn number(self) -> u8
        ensures { result ≡ pile_number self }
    {
        self as u8
    }
}

impl TryFrom<u32> for Pile {
    ghost use Rattle.std.specs.Prelude.{◌≡◌};
    ghost use Rattle.trace.specs.Frames.{pile_numbered};

    type Error = Cause;

    ghost try_from_gives = { λ number found. found ≡ pile_numbered number };

    fn try_from(number: u32) -> Result<Pile, Cause> {
        match number {
            1 => Ok(Pile::Bump),
            2 => Ok(Pile::Reusing),
            3 => Ok(Pile::Splitting),
            _ => Err(Cause::PileNumber),
        }
    }
}

// What a frame behind the head asks the replay to do, for the block of an id.
#[derive(Clone, Copy, PartialEq, Eq, Debug)]
pub enum Action {
    // an id, and the size
    Allocate(u8, u32),
    Free(u8),
    // an id, and the byte that its block is filled with
    Fill(u8, u8),
    Relief,
}

impl Action {
    // The id whose slot it is about. Relief is about none, and has id 0 as its frame has.
    pub fn id(self) -> u8
        ensures { result ≡ id_of self }
    {
        match self {
            Action::Allocate(id, _) | Action::Free(id) | Action::Fill(id, _) => id,
            Action::Relief => 0,
        }
    }
}

// The first frame of a trace with the rest of the trace; none where fewer than six bytes are left.
pub fn read_frame(trace: &[u8]) -> Option<(Frame, &[u8])>
    ensures frames { elim result [ Some p ↦ frames_of trace.now ≡ p.0 ∷ frames_of p.1.now | None ↦ frames_of trace.now ≡ [] ] }
    ensures bytes { elim result [ Some p ↦ trace.now ≡ frame_bytes p.0 ++ p.1.now | None ↦ length trace.now < 6 ] }
{
    match trace {
        [kind, id, a, b, c, d, rest @ ..] => {
            let number = u32::from_be_bytes([*a, *b, *c, *d]);
            let frame = Frame {
                kind: *kind,
                id: *id,
                number,
            };
            Some((frame, rest))
        }
        _ => None,
    }
}

// The frames of a trace, one after another. Fewer than six bytes at its end are no frame.
#[derive(Clone, Drop, Debug)]
pub struct Frames<'a> {
    rest: &'a [u8],
}

impl<'a> Frames<'a> {
    pub fn new(trace: &'a [u8]) -> Frames<'a>
        ensures { frames_left result ≡ frames_of trace.now }
    {
        Frames { rest: trace }
    }
}

impl<'a> Iterator for Frames<'a> {
    ghost use Rattle.std.specs.Iterator.{item_count, YieldsFirst};
    ghost use Rattle.trace.specs.Frames.{frames_left};

    type Item = Frame;

    ghost next_gives = { YieldsFirst frames_left };

    ghost remaining = { item_count frames_left };

    fn next(&mut self) -> Option<Frame> {
        let (frame, rest) = read_frame(self.rest)?;
        self.rest = rest;
        Some(frame)
    }
}

impl Frame {
    // The frame as six bytes, which read as this frame again.
    pub fn to_bytes(self) -> [u8; 6]
        ensures bytes { result ≡ frame_bytes self }
        ensures frames { frames_of result ≡ self ∷ [] }
    {
        let [a, b, c, d] = self.number.to_be_bytes();
        [self.kind, self.id, a, b, c, d]
    }

    // The pile that a head names, or why it is no head.
    pub fn pile(self) -> Result<Pile, Cause>
        ensures { result ≡ pile_of self }
    {
        if self.kind != 0 {
            return Err(Cause::FrameKind);
        }
        if self.id != 0 {
            return Err(Cause::FrameField);
        }
        Pile::try_from(self.number)
    }

    // What a frame behind the head asks for, or why it is no such frame.
    pub fn action(self) -> Result<Action, Cause>
        ensures { result ≡ action_of self }
    {
        match self.kind {
            1 => Ok(Action::Allocate(self.id, self.number)),
            2 if self.number == 0 => Ok(Action::Free(self.id)),
            3 => {
                let byte = u8::try_from(self.number).map_err(|_| Cause::FrameField)?;
                Ok(Action::Fill(self.id, byte))
            }
            4 if self.id == 0 && self.number == 0 => Ok(Action::Relief),
            2 | 4 => Err(Cause::FrameField),
            _ => Err(Cause::FrameKind),
        }
    }
}
