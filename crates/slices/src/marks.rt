// Marks: 0 in use, any other value deleted.

ghost use Rattle.std.specs.Prelude.{◌≡◌, length, take, ◌≤◌};
ghost use Rattle.scope.specs.Check.{set_mark};

// The first of the first n marks that is set.
pub fn first_mark(marks: &[u8], n: u32) -> Option<u32>
    requires { n ≤ length marks.now }
    ensures { result ≡ set_mark (take n marks.now) }
{
    (0..n).find(|i| marks[*i as usize] != 0)
}
