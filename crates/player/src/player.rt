// The replay of a trace on any heap.
ghost use Rattle.std.specs.Prelude.{◌≡◌, ℕ, ◌+◌, ◌*◌, ◌<◌, ◌≤◌, List, [], ◌∷◌, ◌++◌, length};
ghost use Rattle.heap.specs.Faults.{raised};
ghost use Rattle.trace.specs.declared.frame.Action.TheVariants as action;
ghost use Rattle.report.specs.declared.tally.Outcome.TheVariants.{Refused};
ghost use Rattle.report.specs.Tallies.{tally_of};
ghost use Rattle.trace.specs.Frames.{frames_of};
ghost use Rattle.trace.specs.Recordings.{actions_in};
ghost use Rattle.player.specs.Replays.{Acted, Going, Replayed, Replays};
ghost use Rattle.player.specs.Turns.{no_blocks};

use crate::slots::{Slot, Slots};
use heap::fault::{Cause, Fault, Kind};
use heap::interface::Heap;
use report::lines::{check_buffer, write_report};
use report::tally::{Outcome, Tally};
use trace::frame::{Action, Frames};
use trace::recording::check_trace;

// The replay's own refusal of a frame, for its id.
fn refuse(cause: Cause, id: u8) -> Outcome
    ensures { result ≡ Refused (raised cause Kind.Replay id) }
{
    Outcome::Refused(Fault::new(cause, Kind::Replay, u32::from(id)))
}

fn allocate<H: Heap>(heap: &mut H, id: u8, size: u32, slot: &mut Slot) -> Outcome
    ensures { Acted H.Meant.means H.Meant.keeps (action.Allocate id size) slot.old heap.old heap.new (result, slot.new) }
{
    if let Slot::Held(_, _) = *slot {
        return refuse(Cause::SlotTaken, id);
    }
    match heap.allocate(size) {
        Ok((address, length)) => {
            *slot = Slot::Held(address, length);
            Outcome::Granted(length)
        }
        Err(fault) => Outcome::Refused(fault),
    }
}

fn free<H: Heap>(heap: &mut H, id: u8, slot: &mut Slot) -> Outcome
    ensures { Acted H.Meant.means H.Meant.keeps (action.Free id) slot.old heap.old heap.new (result, slot.new) }
{
    let Slot::Held(address, length) = *slot else {
        return refuse(Cause::SlotEmpty, id);
    };
    match heap.free(address) {
        Ok(()) => {
            *slot = Slot::Empty;
            Outcome::Freed(length)
        }
        Err(fault) => Outcome::Refused(fault),
    }
}

// Fills the whole block of the slot.
fn fill<H: Heap>(heap: &mut H, id: u8, byte: u8, slot: Slot) -> Outcome
    ensures { Acted H.Meant.means H.Meant.keeps (action.Fill id byte) slot heap.old heap.new (result, slot) }
{
    let Slot::Held(address, length) = slot else {
        return refuse(Cause::SlotEmpty, id);
    };
    match heap.fill(address, length, byte) {
        Ok(()) => Outcome::Done,
        Err(fault) => Outcome::Refused(fault),
    }
}

// Does what a frame asks for, with its slot. Each of the three above takes what its own action has.
fn act<H: Heap>(heap: &mut H, action: Action, slot: &mut Slot) -> Outcome
    ensures { Acted H.Meant.means H.Meant.keeps action slot.old heap.old heap.new (result, slot.new) }
{
    match action {
        Action::Allocate(id, size) => allocate(heap, id, size, slot),
        Action::Free(id) => free(heap, id, slot),
        Action::Fill(id, byte) => fill(heap, id, byte, *slot),
        Action::Relief => {
            heap.relief();
            Outcome::Done
        }
    }
}

// A replay under way.
#[derive(Drop)]
struct Player {
    slots: Slots,
    tally: Tally,
}

impl Player {
    fn new() -> Player
        ensures slots { result.slots.table ≡ no_blocks }
        ensures tally { result.tally ≡ tally_of [] }
    {
        Player {
            slots: Slots::new(),
            tally: Tally::new(),
        }
    }

    // One frame more.
    fn turn<H: Heap>(&mut self, heap: &mut H, action: Action)
        ensures { (start : H) (xs : List Action) (os : List Outcome) → length os < 5461 → Going H.Meant.means H.Meant.keeps xs os self.old.slots.table self.old.tally start heap.old → (o : Outcome) × Going H.Meant.means H.Meant.keeps (xs ++ (action ∷ [])) (os ++ (o ∷ [])) self.new.slots.table self.new.tally start heap.new }
    {
        let id = action.id();
        let mut slot = self.slots.at(id);
        let outcome = act(heap, action, &mut slot);
        self.slots.put(id, slot);
        self.tally.note(outcome);
    }
}

// Runs the frames of a trace in order, from empty slots. A head asks for nothing.
fn play<H: Heap>(heap: &mut H, trace: &[u8]) -> Tally
    requires { length trace.now ≤ 32766 }
    ensures { Replayed H.Meant.means H.Meant.keeps (actions_in (frames_of trace.now)) result heap.old heap.new }
{
    let mut player = Player::new();
    for frame in Frames::new(trace) {
        if let Ok(action) = frame.action() {
            player.turn(heap, action);
        }
    }
    player.tally
}

// Replays a trace on any heap and writes the report into the lent buffer; answers its length.
//
// The trace is tested first, then the buffer. Where either is refused, no frame runs, and heap and buffer are as they were.
pub fn replay<H: Heap>(heap: &mut H, trace: &[u8], report: &mut [u8]) -> Result<usize, Fault>
    ensures { Replays H.Meant.means H.Meant.keeps trace.now heap.old heap.new report.old report.new result }
{
    let pile = check_trace(trace)?;
    check_buffer(report)?;
    let tally = play(heap, trace);
    write_report(report, pile.number(), &tally)
}
