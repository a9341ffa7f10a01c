// The tests that a heap makes of a call before it acts, and the faults that they raise. What find told and the address travel together through these alone: a struct of both would be made at each call and taken apart.
ghost use Rattle.std.specs.Prelude.{◌≡◌};
ghost use Rattle.heap.specs.Checks.{admitted, begun, reached, checked_get, checked_free, checked_fill};

use crate::fault::{Cause, Fault, Kind};

// The size of an allocate or an offer, from 1 to the largest; else why it is refused.
pub fn admit(n: u32, largest: u32, kind: Kind) -> Result<u32, Fault>
    ensures { result ≡ admitted largest kind n }
{
    if n == 0 {
        return Err(Fault::new(Cause::Zero, kind, 0));
    }
    if n > largest {
        return Err(Fault::new(Cause::TooLarge, kind, n));
    }
    Ok(n)
}

// The length of the block that find told for `a`, if it begins there; else 0, which no block has. Callers compare it or divide it as it is, and an Option would be taken apart at each.
pub fn begun_at(found: Option<(u32, u32)>, a: u32) -> u32
    ensures { result ≡ begun found a }
{
    match found {
        Some((start, length)) if start == a => length,
        _ => 0,
    }
}

// Whether the block that find told for `a` has the `c` bytes from `a` on.
pub fn reaches(found: Option<(u32, u32)>, a: u32, c: u32) -> bool
    ensures { result ≡ reached found a c }
{
    found.is_some_and(|(start, length)| {
        u64::from(a) + u64::from(c) <= u64::from(start) + u64::from(length)
    })
}

// The test of a get, by what find told for its address.
pub fn check_get(found: Option<(u32, u32)>, a: u32, kind: Kind) -> Result<(), Fault>
    ensures { result ≡ checked_get kind found a }
{
    if !reaches(found, a, 1) {
        return Err(Fault::new(Cause::Outside, kind, a));
    }
    Ok(())
}

// The test of a free.
pub fn check_free(found: Option<(u32, u32)>, a: u32, kind: Kind) -> Result<(), Fault>
    ensures { result ≡ checked_free kind found a }
{
    if begun_at(found, a) == 0 {
        return Err(Fault::new(Cause::NotLive, kind, a));
    }
    Ok(())
}

// The test of a fill: no bytes at all come before bytes outside a block.
pub fn check_fill(found: Option<(u32, u32)>, a: u32, c: u32, kind: Kind) -> Result<(), Fault>
    ensures { result ≡ checked_fill kind found a c }
{
    if c == 0 {
        return Err(Fault::new(Cause::Zero, kind, a));
    }
    if !reaches(found, a, c) {
        return Err(Fault::new(Cause::Outside, kind, a));
    }
    Ok(())
}
