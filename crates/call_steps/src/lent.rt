// What is lent for the result of a subdivision.

ghost use Rattle.std.specs.Prelude.{◌≡◌};
ghost use Rattle.mesh.specs.Given.{lists};
ghost use Rattle.call_steps.specs.Lent.{lent};

use mesh::given::Slices;

// Links, marks and points of the result, each in a slice, and the slice to work in. Not the reader's `Lent` with one slice more: each function that
// takes a field of a field by `&mut` would have to say that it is still lent.
#[derive(Drop)]
pub struct Buffers<'a> {
    pub outs: &'a mut [u32],
    pub edges: &'a mut [u32],
    pub faces: &'a mut [u32],
    pub vmarks: &'a mut [u8],
    pub emarks: &'a mut [u8],
    pub fmarks: &'a mut [u8],
    pub points: &'a mut [f64],
    pub work: &'a mut [f64],
}

impl Buffers<'_> {
    // The links and marks, to look at.
    pub fn slices(&self) -> Slices<'_>
        ensures { lists result ≡ (lent self.now).result }
    {
        Slices {
            outs: self.outs,
            edges: self.edges,
            faces: self.faces,
            vmarks: self.vmarks,
            emarks: self.emarks,
            fmarks: self.fmarks,
        }
    }
}
