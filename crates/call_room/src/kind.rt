// The schemes that a call can be asked for. A scheme joins by a variant here and a branch wherever one is matched; what the
// branches are worth is said of `scheme_of`, and all that is proved of calls is proved over a scheme that keeps its laws. An enum, as
// a job card names its scheme by a word (`refine_words`): with a trait the same match would stand there.

ghost use Rattle.std.specs.Prelude.{◌≡◌};
ghost use Rattle.scope.specs.Links.{Links};
ghost use Rattle.call_room.specs.Kinds.{scheme_of};

#[derive(Clone, Copy)]
pub enum Kind {
    Catmull,
}

// The flag that the first pass starts with: for Catmull-Clark the one asked for, whatever the mesh.
pub fn settle(kind: Kind, flag: bool) -> bool
    ensures { (m : Links) → result ≡ (scheme_of kind).settle ((scheme_of kind).prepare m) flag }
{
    match kind {
        Kind::Catmull => flag,
    }
}

// The flag after a pass.
pub fn turn(kind: Kind, flag: bool) -> bool
    ensures { result ≡ (scheme_of kind).turn flag }
{
    match kind {
        Kind::Catmull => flag,
    }
}
