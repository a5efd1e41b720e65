// Words and the bits of numbers in bytes, little-endian.

ghost use Rattle.std.specs.Prelude.{◌≡◌, true, ◌<◌, ◌+◌, ◌*◌, length};
ghost use Rattle.std.specs.Float.{binary64};
ghost use Rattle.std.specs.Float.Ieee.{of_bits};
ghost use Rattle.std.specs.Float.Ieee.Scale.{finite};
ghost use Rattle.file_read.specs.Format.{word_at, bits_at};

#[tactic(auto, unfolding(crate::specs::Format::word_at))]
pub fn word(b: &[u8], at: usize) -> usize
    requires { at + 3 < length b.now }
    ensures value { result ≡ word_at b.now at }
    ensures upper_bound { result < 4294967296 }
{
    u32::from_le_bytes([b[at], b[at + 1], b[at + 2], b[at + 3]]) as usize
}

// The bits of a number are two words, the lower first.
#[tactic(auto, unfolding(crate::specs::Format::bits_at))]
pub fn bits(b: &[u8], at: usize) -> u64
    requires { at + 7 < length b.now }
    ensures { result ≡ bits_at b.now at }
{
    (word(b, at) + 4294967296 * word(b, at + 4)) as u64
}

// The exponent's field is all ones in an infinity and in a NaN, and nowhere else. The bits tell, since f64::from_bits takes no NaN.
#[tactic(auto, using(crate::proofs::FiniteLaws::finite_bits))]
pub fn finite_at(b: &[u8], at: usize) -> bool
    requires { at + 7 < length b.now }
    ensures { result ≡ finite (of_bits binary64 (bits_at b.now at)) }
{
    bits(b, at) % 9223372036854775808 / 4503599627370496 != 2047
}

#[tactic(auto, using(crate::proofs::FiniteLaws::no_nan_bits))]
pub fn number(b: &[u8], at: usize) -> f64
    requires at_in_bounds { at + 7 < length b.now }
    requires at_value { finite (of_bits binary64 (bits_at b.now at)) ≡ true }
    ensures { result ≡ of_bits binary64 (bits_at b.now at) }
{
    f64::from_bits(bits(b, at))
}
