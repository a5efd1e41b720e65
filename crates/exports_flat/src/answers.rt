// Answers without enums, which cannot be handed out: document 01's number and the three values that come with it.

ghost use Rattle.std.specs.Prelude.{◌≡◌};
ghost use Rattle.scope.specs.Answers.{said_of, said_checked};
ghost use Rattle.exports_flat.specs.Flat.{flat_of, flat_reading, flat_writing, flag_of, flat_subdivided};

use scope::answers::{Refusal, Said};
use scope::records::Counts;

#[repr(C)]
#[derive(Clone, Copy, Debug, PartialEq, Eq)]
pub struct Flat {
    pub number: u32,
    pub first: u32,
    pub second: u32,
    pub third: u32,
}

// What a reader answers, and the counts of the mesh that was read; zeros if none was.
#[repr(C)]
#[derive(Clone, Copy, Debug, PartialEq, Eq)]
pub struct FlatRead {
    pub answer: Flat,
    pub v: usize,
    pub e: usize,
    pub f: usize,
}

// What a writer answers, and the number of bytes that it wrote.
#[repr(C)]
#[derive(Clone, Copy, Debug, PartialEq, Eq)]
pub struct FlatWritten {
    pub answer: Flat,
    pub length: usize,
}

// What a subdivision answers, the counts of the result and the flag for the next call; zeros if there is none.
#[repr(C)]
#[derive(Clone, Copy, Debug, PartialEq, Eq)]
pub struct FlatSubdivided {
    pub answer: Flat,
    pub v: usize,
    pub e: usize,
    pub f: usize,
    pub flag: u32,
}

const DONE: Flat = Flat {
    number: 0,
    first: 0,
    second: 0,
    third: 0,
};

impl From<Said> for Flat {
    ghost from_gives = { λ s flat. flat ≡ flat_of s };

    fn from(s: Said) -> Flat {
        Flat {
            number: s.number,
            first: s.values[0],
            second: s.values[1],
            third: s.values[2],
        }
    }
}

impl From<Refusal> for Flat {
    ghost from_gives = { λ r flat. flat ≡ flat_of (said_of r) };

    fn from(r: Refusal) -> Flat {
        Flat::from(Said::from(r))
    }
}

// Functions and no `From`: each has the name of its definition.
#[tactic(auto, unfolding(scope::specs::Answers::said_checked))]
pub fn flat_checked(x: Result<(), Refusal>) -> Flat
    ensures { result ≡ flat_of (said_checked x) }
{
    match x {
        Ok(()) => DONE,
        Err(r) => Flat::from(r),
    }
}

#[tactic(auto, unfolding(crate::specs::Flat::flat_reading))]
pub fn flat_reading(x: Result<Counts, Refusal>) -> FlatRead
    ensures { result ≡ flat_reading x }
{
    match x {
        Ok(c) => FlatRead {
            answer: DONE,
            v: c.v,
            e: c.e,
            f: c.f,
        },
        Err(r) => FlatRead {
            answer: Flat::from(r),
            v: 0,
            e: 0,
            f: 0,
        },
    }
}

#[tactic(auto, unfolding(crate::specs::Flat::flat_writing))]
pub fn flat_writing(x: Result<usize, Refusal>) -> FlatWritten
    ensures { result ≡ flat_writing x }
{
    match x {
        Ok(length) => FlatWritten {
            answer: DONE,
            length,
        },
        Err(r) => FlatWritten {
            answer: Flat::from(r),
            length: 0,
        },
    }
}

// A flag from a number, and back: C has no type of its own for it here.
pub fn flag_of(n: u32) -> bool
    ensures { result ≡ flag_of n }
{
    n != 0
}

#[tactic(auto, unfolding(crate::specs::Flat::flat_subdivided))]
pub fn flat_subdivided(x: Result<(Counts, bool), Refusal>) -> FlatSubdivided
    ensures { result ≡ flat_subdivided x }
{
    match x {
        Ok((made, next)) => FlatSubdivided {
            answer: DONE,
            v: made.v,
            e: made.e,
            f: made.f,
            flag: u32::from(next),
        },
        Err(r) => FlatSubdivided {
            answer: Flat::from(r),
            v: 0,
            e: 0,
            f: 0,
            flag: 0,
        },
    }
}
