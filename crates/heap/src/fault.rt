// Why a call was refused, which heap raised that, and how a refusal goes up a pile.
ghost use Rattle.std.specs.Prelude.{◌≡◌};
ghost use Rattle.heap.specs.Faults.{cause_number, kind_number, raised, handed_up, up, own};

use std::fmt;

// Why a call was refused, with the number that a report prints.
#[derive(Clone, Copy, PartialEq, Eq, Debug)]
pub enum Cause {
    Zero = 1,
    TooLarge = 2,
    NotLive = 3,
    Outside = 4,
    Full = 5,
    Shut = 6,
    OverQuota = 7,
    TraceLength = 11,
    FrameKind = 12,
    FrameField = 13,
    PileNumber = 14,
    ReportBuffer = 18,
    SlotTaken = 21,
    SlotEmpty = 22,
}

impl Cause {
    pub fn number(self) -> u8
        ensures { result ≡ cause_number self }
    {
        self as u8
    }
}

impl fmt::Display for Cause {
    fn fmt<W: fmt::Write>(&self, f: &mut fmt::Formatter<W>) -> fmt::Result {
        f.write_str(match self {
            Cause::Zero => "nothing asked for",
            Cause::TooLarge => "too large",
            Cause::NotLive => "no live block begins here",
            Cause::Outside => "outside one live block",
            Cause::Full => "no space",
            Cause::Shut => "second heap is shut",
            Cause::OverQuota => "over the quota",
            Cause::TraceLength => "trace has no whole frames",
            Cause::FrameKind => "frame kind",
            Cause::FrameField => "frame field",
            Cause::PileNumber => "pile number",
            Cause::ReportBuffer => "report buffer",
            Cause::SlotTaken => "id holds a block",
            Cause::SlotEmpty => "id holds none",
        })
    }
}

// Which heap raised a fault, or that the replay did, with the number that a report prints.
#[derive(Clone, Copy, PartialEq, Eq, Debug)]
pub enum Kind {
    Replay = 0,
    Bump = 1,
    Bitmap = 2,
    BoundaryTag = 3,
    Rounding = 4,
    Affix = 5,
    FreeList = 6,
    Quota = 7,
    Segregator = 8,
    Fallback = 9,
}

impl Kind {
    pub fn number(self) -> u8
        ensures { result ≡ kind_number self }
    {
        self as u8
    }
}

impl fmt::Display for Kind {
    fn fmt<W: fmt::Write>(&self, f: &mut fmt::Formatter<W>) -> fmt::Result {
        f.write_str(match self {
            Kind::Replay => "replay",
            Kind::Bump => "bump",
            Kind::Bitmap => "bitmap",
            Kind::BoundaryTag => "boundary tag",
            Kind::Rounding => "rounding",
            Kind::Affix => "affix",
            Kind::FreeList => "free list",
            Kind::Quota => "quota",
            Kind::Segregator => "segregator",
            Kind::Fallback => "fallback",
        })
    }
}

// `down` counts the layers that handed the fault up, to 255 and no further.
// `place` is the size or the address as the raising heap was given it.
#[derive(Clone, Copy, PartialEq, Eq, Debug)]
pub struct Fault {
    pub cause: Cause,
    pub kind: Kind,
    pub down: u8,
    pub place: u32,
}

impl Fault {
    // Every fault is made here.
    pub fn new(cause: Cause, kind: Kind, place: u32) -> Fault
        ensures { result ≡ raised cause kind place }
    {
        Fault {
            cause,
            kind,
            down: 0,
            place,
        }
    }

    // The fault as the next layer hands it up.
    pub fn up(self) -> Fault
        ensures { result ≡ handed_up self }
    {
        Fault {
            down: self.down.saturating_add(1),
            ..self
        }
    }
}

impl fmt::Display for Fault {
    fn fmt<W: fmt::Write>(&self, f: &mut fmt::Formatter<W>) -> fmt::Result {
        write!(
            f,
            "refused {}, {} ({}, down {}, place {})",
            self.cause.number(),
            self.cause,
            self.kind,
            self.down,
            self.place
        )
    }
}

// An answer from below to an allocate or an offer: its fault goes up.
pub fn hand_up<T>(answer: Result<T, Fault>) -> Result<T, Fault>
    ensures { result ≡ up answer }
{
    answer.map_err(Fault::up)
}

// An answer from below to any other call: the layer that was called raises its fault itself.
pub fn make_own<T>(answer: Result<T, Fault>, kind: Kind, place: u32) -> Result<T, Fault>
    ensures { result ≡ own kind place answer }
{
    answer.map_err(|fault| Fault::new(fault.cause, kind, place))
}
