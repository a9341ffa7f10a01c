// The fault that most cases meet.
use heap::fault::{Cause, Fault, Kind};

// No space, as the heap that is called raises it.
pub fn full(kind: Kind, place: u32) -> Fault {
    Fault {
        cause: Cause::Full,
        kind,
        down: 0,
        place,
    }
}
