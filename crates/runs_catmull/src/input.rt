// The input: parts one after the other, each with its length before it, in four bytes.

ghost use Rattle.std.specs.Prelude.{◌≡◌, ◌≤◌, length, take};

use crate::cell::Cell;
use file_read::bytes::word;
use std::io::Read;

#[derive(Drop)]
pub struct Parts<R> {
    from: R,
    space: [u8; 65536],
}

impl<R: Read> Parts<R> {
    pub fn new(from: R) -> Parts<R> {
        Parts {
            from,
            space: [0; 65536],
        }
    }

    // The length of the next part, 0 at the end of the input.
    fn next_length(&mut self) -> usize {
        let mut four = [0u8; 4];
        let got = host::read_full(&mut self.from, &mut four);
        if got < 4 { 0 } else { word(&four, 0) }
    }

    // The next part, at the start of a slice that is large enough for it: its length.
    pub fn read(&mut self, into: &mut [u8]) -> usize
        ensures { result ≤ length into.new }
    {
        let n = self.next_length().min(into.len());
        host::read_full(&mut self.from, &mut into[..n]);
        n
    }

    // The next part, which is not larger than the space.
    pub fn part(&mut self) -> &[u8] {
        let n = self.next_length().min(65536);
        let space = &mut self.space[..];
        host::read_full(&mut self.from, &mut space[..n]);
        &self.space[..n]
    }

    // The next part laid into a slice, with zeros after it.
    pub fn lay<T: Cell>(&mut self, into: &mut [T]) {
        let part = self.part();
        for (i, x) in into.iter_mut().enumerate() {
            *x = T::from_bits(T::bits_in(part, i).unwrap_or(0));
        }
    }
}
