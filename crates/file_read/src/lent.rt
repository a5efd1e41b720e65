// What is lent for a mesh that is read.

ghost use Rattle.std.specs.Prelude.{◌≡◌};
ghost use Rattle.mesh.specs.Given.{lists, given};
ghost use Rattle.file_read.specs.Held.{held};

use mesh::given::{Given, Slices};
use scope::records::Counts;

// Links, marks and points, each in a slice.
#[derive(Drop)]
pub struct Lent<'a> {
    pub outs: &'a mut [u32],
    pub edges: &'a mut [u32],
    pub faces: &'a mut [u32],
    pub vmarks: &'a mut [u8],
    pub emarks: &'a mut [u8],
    pub fmarks: &'a mut [u8],
    pub points: &'a mut [f64],
}

impl Lent<'_> {
    // The links and marks, to look at.
    pub fn slices(&self) -> Slices<'_>
        ensures { lists result ≡ (held self.now).slices }
    {
        Slices {
            outs: self.outs,
            edges: self.edges,
            faces: self.faces,
            vmarks: self.vmarks,
            emarks: self.emarks,
            fmarks: self.fmarks,
        }
    }

    // The mesh that was read.
    pub fn mesh(&self, counts: Counts) -> Given<'_>
        ensures { given result ≡ record { counts = counts; slices = (held self.now).slices; points = (held self.now).points } }
    {
        Given {
            counts,
            slices: self.slices(),
            points: self.points,
        }
    }
}
