// What a slice of a mesh holds at each place: a word, a mark or a number.

use file_read::bytes::{bits, word};

pub trait Cell: Copy {
    // The bits of the i-th of a part of the input, if it has so many.
    fn bits_in(part: &[u8], i: usize) -> Option<u64>;

    fn from_bits(bits: u64) -> Self;

    fn bits(self) -> u64;

    // What a lent slice holds there before a call: nothing that a mesh or zeros could be taken for, and for words and marks another value at
    // each place.
    fn junk(i: usize) -> Self;
}

impl Cell for u32 {
    fn bits_in(part: &[u8], i: usize) -> Option<u64> {
        if part.len() / 4 <= i {
            return None;
        }
        Some(word(part, 4 * i) as u64)
    }

    fn from_bits(bits: u64) -> u32 {
        (bits % 4294967296) as u32
    }

    fn bits(self) -> u64 {
        self as u64
    }

    fn junk(i: usize) -> u32 {
        (i % 65536) as u32 + 2779054080
    }
}

impl Cell for u8 {
    fn bits_in(part: &[u8], i: usize) -> Option<u64> {
        if part.len() <= i {
            return None;
        }
        Some(part[i] as u64)
    }

    fn from_bits(bits: u64) -> u8 {
        (bits % 256) as u8
    }

    fn bits(self) -> u64 {
        self as u64
    }

    fn junk(i: usize) -> u8 {
        (i % 127) as u8 + 128
    }
}

const NAN: u64 = 0x7ff8_0000_0000_0000;

impl Cell for f64 {
    fn bits_in(part: &[u8], i: usize) -> Option<u64> {
        if part.len() / 8 <= i {
            return None;
        }
        Some(bits(part, 8 * i))
    }

    fn from_bits(bits: u64) -> f64 {
        if 0x7ff0_0000_0000_0000 < bits % 0x8000_0000_0000_0000 {
            return f64::NAN;
        }
        f64::from_bits(bits)
    }

    // A NaN has many bit patterns and a program cannot ask for them: any stands for this one.
    fn bits(self) -> u64 {
        if self.is_nan() {
            return NAN;
        }
        self.to_bits()
    }

    fn junk(i: usize) -> f64 {
        if i % 2 == 0 { -1.5 } else { 1234.5 }
    }
}

pub fn fill_with_junk<T: Cell>(s: &mut [T]) {
    for (i, x) in s.iter_mut().enumerate() {
        *x = T::junk(i);
    }
}

// The bits that are expected at a place: those of the part, if it has so many, junk from `junk_from` on, and else zero.
fn expected<T: Cell>(part: &[u8], junk_from: usize, i: usize) -> u64 {
    match T::bits_in(part, i) {
        Some(bits) => bits,
        None if junk_from <= i => T::junk(i).bits(),
        None => 0,
    }
}

// The first place that is not as expected.
pub fn first_difference<T: Cell>(part: &[u8], junk_from: usize, got: &[T]) -> Option<usize> {
    got.iter()
        .enumerate()
        .position(|(i, x)| x.bits() != expected::<T>(part, junk_from, i))
}
