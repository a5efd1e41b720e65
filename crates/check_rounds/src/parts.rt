// The parts of a sewn mesh: its halfedges alone, these with the faces, these with the vertices. A rule at a halfedge takes the part that it looks at, and asks
// nothing of the rest.

ghost use Rattle.std.specs.Prelude.{◌≡◌, ◌*◌, ◌<◌};
ghost use Rattle.laws_check.specs.Tells.{Tells};
ghost use Rattle.check_rules.specs.Once.{Faced-prop, Rooted-prop};
ghost use Rattle.check_rules.specs.Place.{Half};
ghost use Rattle.check_rules.specs.Rule.{EdgesFit, Faced, ItemsFit, Rooted, Sewn};
ghost use Rattle.mesh.specs.Words.{face_at, tail_at};

use check_rules::states::SewnMesh;
use check_rules::there;
use mesh::half;

// C1, C2 and C3 are in order among the halfedges.
#[derive(Clone, Copy)]
pub struct SewnHalves<'a> {
    pub edges: &'a [u32],
    pub emarks: &'a [u8],
    pub ne: u32,
    pub ghost fit: { EdgesFit edges.now emarks.now ne },
    pub ghost sewn: { Sewn edges.now emarks.now ne },
}

// And C1 at the links from and to faces.
#[derive(Clone, Copy)]
pub struct SewnFaces<'a> {
    pub halves: SewnHalves<'a>,
    pub faces: &'a [u32],
    pub fmarks: &'a [u8],
    pub nf: u32,
    pub ghost fit: { ItemsFit faces.now fmarks.now nf },
    pub ghost faced: { Faced halves.edges.now halves.emarks.now faces.now fmarks.now halves.ne nf } by { Faced-prop fit.few },
}

// Or at those from and to vertices.
#[derive(Clone, Copy)]
pub struct SewnVertices<'a> {
    pub halves: SewnHalves<'a>,
    pub outs: &'a [u32],
    pub vmarks: &'a [u8],
    pub nv: u32,
    pub ghost fit: { ItemsFit outs.now vmarks.now nv },
    pub ghost rooted: { Rooted halves.edges.now halves.emarks.now outs.now vmarks.now halves.ne nv } by { Rooted-prop halves.fit.few },
}

impl<'a> SewnHalves<'a> {
    ghost use Rattle.check_rounds.specs.OnParts.{halves_of};

    pub(crate) fn of(m: &SewnMesh<'a>) -> Self
        ensures { result ≡ halves_of m.now }
    {
        SewnHalves {
            edges: m.mesh.edges,
            emarks: m.mesh.emarks,
            ne: m.mesh.ne,
        }
    }

    pub(crate) fn live_half(&self, h: u32) -> bool
        ensures { Tells result (Half self.now.emarks.now self.now.ne h) }
    {
        there::live_half(self.emarks, self.ne, h)
    }

    pub(crate) fn face(&self, h: u32) -> u32
        requires { h < 2 * self.now.ne }
        ensures { result ≡ face_at self.now.edges.now h }
    {
        half::face(self.edges, h)
    }

    pub(crate) fn tail(&self, h: u32) -> u32
        requires { h < 2 * self.now.ne }
        ensures { result ≡ tail_at self.now.edges.now h }
    {
        half::tail(self.edges, h)
    }
}

impl<'a> SewnFaces<'a> {
    ghost use Rattle.check_rounds.specs.OnParts.{faces_of};

    pub(crate) fn of(m: &SewnMesh<'a>) -> Self
        ensures { result ≡ faces_of m.now }
    {
        SewnFaces {
            halves: SewnHalves::of(m),
            faces: m.mesh.faces,
            fmarks: m.mesh.fmarks,
            nf: m.mesh.nf,
        }
    }
}

impl<'a> SewnVertices<'a> {
    ghost use Rattle.check_rounds.specs.OnParts.{vertices_of};

    pub(crate) fn of(m: &SewnMesh<'a>) -> Self
        ensures { result ≡ vertices_of m.now }
    {
        SewnVertices {
            halves: SewnHalves::of(m),
            outs: m.mesh.outs,
            vmarks: m.mesh.vmarks,
            nv: m.mesh.nv,
        }
    }
}
