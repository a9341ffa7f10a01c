// Lawful roundings: sizes go up to a few, so that a freed block serves every size that was rounded to its own.
ghost use Rattle.std.specs.Prelude.{◌≡◌, ℕ};
ghost use Rattle.heap.specs.Roundings.{LawfulRounding, grain, power};
ghost use Rattle.heap.specs.Classes.{grain_lawful, power_lawful};
ghost use Rattle.heap.specs.Checks.{rounded_size};

use crate::checks::admit;
use crate::fault::{Fault, Kind};

pub trait Rounding {
    // The largest size that is rounded; larger ones are refused.
    const LARGEST: u32;

    // that number for clauses, which the checker holds each impl to
    ghost LARGEST: { ℕ };

    ghost rounds: { ℕ → ℕ };

    ghost lawful: { LawfulRounding LARGEST rounds };

    // LARGEST, as a function for those who hold a rounding by its calls.
    fn limit() -> u32
        ensures { result ≡ LARGEST }
    {
        Self::LARGEST
    }

    // The size that stands for `n`; 0 where `n` is 0 or above the largest, as the rules of a rounding say it.
    fn round(n: u32) -> u32
        ensures { result ≡ rounds n };
}

// The size to ask for in place of `n`, or why `n` is refused.
pub fn rounded_size<R: Rounding>(n: u32, kind: Kind) -> Result<u32, Fault>
    ensures { result ≡ rounded_size R.LARGEST R.rounds kind n }
{
    let n = admit(n, R::LARGEST, kind)?;
    Ok(R::round(n))
}

// To multiples of 8.
#[derive(Clone, Copy)]
pub struct Grain;

impl Rounding for Grain {
    const LARGEST: u32 = 8192;

    ghost LARGEST = { 8192 };

    ghost rounds = { grain };

    ghost lawful = { grain_lawful };

    fn round(n: u32) -> u32 {
        if n == 0 || n > Self::LARGEST {
            return 0;
        }
        n.next_multiple_of(8)
    }
}

// To powers of two from 8 on.
#[derive(Clone, Copy)]
pub struct Power;

impl Rounding for Power {
    const LARGEST: u32 = 32768;

    ghost LARGEST = { 32768 };

    ghost rounds = { power };

    ghost lawful = { power_lawful };

    fn round(n: u32) -> u32 {
        if n == 0 || n > Self::LARGEST {
            return 0;
        }
        n.next_power_of_two().max(8)
    }
}
