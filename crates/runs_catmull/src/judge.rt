// What a call answers and leaves, compared with what it has to.

ghost use Rattle.std.specs.Prelude.{◌≤◌};

use crate::cell::{Cell, first_difference};
use crate::input::Parts;
use std::io;
use std::io::Read;

// Where the differences of a case are told, and whether the call had to leave all as handed in.
#[derive(Clone, Copy)]
pub struct Judge<'a, P> {
    pub out: &'a P,
    pub name: &'a [u8],
    pub kept: bool,
}

impl<'a, P: Print> Judge<'a, P> {
    fn print_place(&self, what: &[u8], at: usize) -> io::Result<()> {
        self.out.write_all(self.name)?;
        self.out.write_all(b": ")?;
        self.out.write_all(what)?;
        self.out.write_all(b" ")?;
        self.out.print(at)?;
        self.out.write_all(b"\n")
    }

    // A line about a difference, if there is one: how many there are. One whose line cannot be written counts too.
    pub fn report(&self, what: &[u8], place: Option<usize>) -> u32
        ensures { result ≤ 1 }
    {
        match place {
            Some(at) => {
                let _ = self.print_place(what, at);
                1
            }
            None => 0,
        }
    }

    // The next part of the input is what `got` has to begin with; so many of it were lent, and junk is what was not.
    pub fn slice<R: Read, T: Cell>(
        &self,
        parts: &mut Parts<R>,
        what: &[u8],
        lent: usize,
        got: &[T],
    ) -> u32
        ensures { result ≤ 1 }
    {
        let junk_from = if self.kept { 0 } else { lent };
        self.report(what, first_difference(parts.part(), junk_from, got))
    }
}
