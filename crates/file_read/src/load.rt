// Words, marks and numbers of a file laid into slices, each with zeros after them.

ghost use Rattle.std.specs.Prelude.{◌≡◌, ℕ, List, ◌≤◌, ◌<◌, ◌+◌, ◌*◌, length, get_or};
ghost use Rattle.scope.specs.Lists.{lay};
ghost use Rattle.scope.specs.Slices.{float_zero};
ghost use Rattle.file_read.specs.Format.{words, bytes, numbers};
ghost use Rattle.file_read.specs.Cells.{Cells, HoldsWords, HoldsMarks, HoldsNumbers, words_laws, marks_laws, numbers_laws};

use crate::bytes::{number, word};

// What stands in a file, one value after another.
pub trait Cell: Copy {
    // The n values from there on.
    ghost values: { List ℕ → ℕ → ℕ → List Self };

    // That the file holds them, and each can be read.
    ghost holds: { List ℕ → ℕ → ℕ → Type 0 };

    ghost ZERO: { Self };

    ghost laws: { Cells values };

    const ZERO: Self;

    // The i-th of the n values from there on.
    fn read(file: &[u8], from: usize, n: usize, i: usize) -> Self
        requires held { holds file.now from n }
        requires in_row { i < n }
        ensures { result ≡ get_or (values file.now from n) i ZERO };
}

impl Cell for u32 {
    ghost values = { words };

    ghost holds = { HoldsWords };

    ghost ZERO = { 0 };

    ghost laws = { words_laws };

    const ZERO: u32 = 0;

    #[tactic(auto, using(crate::proofs::FillLaws::at_place))]
    fn read(file: &[u8], from: usize, n: usize, i: usize) -> u32 {
        word(file, from + 4 * i) as u32
    }
}

impl Cell for u8 {
    ghost values = { bytes };

    ghost holds = { HoldsMarks };

    ghost ZERO = { 0 };

    ghost laws = { marks_laws };

    const ZERO: u8 = 0;

    #[tactic(auto, using(crate::proofs::FillLaws::at_place))]
    fn read(file: &[u8], from: usize, n: usize, i: usize) -> u8 {
        file[from + i]
    }
}

impl Cell for f64 {
    ghost values = { numbers };

    ghost holds = { HoldsNumbers };

    ghost ZERO = { float_zero };

    ghost laws = { numbers_laws };

    const ZERO: f64 = 0.0;

    #[tactic(auto, using(crate::proofs::FillLaws::at_place))]
    fn read(file: &[u8], from: usize, n: usize, i: usize) -> f64 {
        number(file, from + 8 * i)
    }
}

// The n values from there on, then zeros.
pub fn load<T: Cell>(file: &[u8], from: usize, n: usize, into: &mut [T])
    requires { T.holds file.now from n }
    ensures { into.new ≡ lay T.ZERO (T.values file.now from n) into.old }
{
    for (i, x) in into.iter_mut().enumerate() {
        *x = if i < n {
            T::read(file, from, n, i)
        } else {
            T::ZERO
        };
    }
}
