// One search for each rule that is decided at its place: the first place that is not in order.

ghost use Rattle.std.specs.Prelude.{ℕ, ◌*◌, ◌<◌};
ghost use Rattle.check_rules.specs.OnMesh.{BearsOk, EdgeOk, FaceOk, HalfedgeOk, LeavesOk, LongOk, SewOk, SpikeOk, UndoOk, VertexOk};
ghost use Rattle.check_rules.specs.Place.{Found, FoundBy};

use crate::states::{LinkedMesh, Mesh, SewnMesh};

// The first number below n at which the test of m fails.
fn first_wrong<M: Copy, F: Fn(M, u32) -> bool>(m: M, n: u32, ok: F) -> Option<u32>
    requires { (k : ℕ) → k < n → F.pre ok m k }
    ensures { FoundBy (F.post ok m) n result }
{
    (0..n).find(
        |&k|
            requires { F.pre ok m k }
        { !ok(m, k) },
    )
}

impl Mesh<'_> {
    // C1 at vertices.
    pub fn vertices_linked(&self) -> Option<u32>
        ensures { Found (VertexOk self.now) self.now.nv result }
    {
        first_wrong(self, self.nv, Self::vertex_ok)
    }

    // C1 at halfedges.
    pub fn halfedges_linked(&self) -> Option<u32>
        ensures { Found (HalfedgeOk self.now) (2 * self.now.ne) result }
    {
        first_wrong(self, 2 * self.ne, Self::halfedge_ok)
    }

    // C1 at faces.
    pub fn faces_linked(&self) -> Option<u32>
        ensures { Found (FaceOk self.now) self.now.nf result }
    {
        first_wrong(self, self.nf, Self::face_ok)
    }

    // C5.
    pub fn all_edges(&self) -> Option<u32>
        ensures { Found (EdgeOk self.now) (2 * self.now.ne) result }
    {
        first_wrong(self, 2 * self.ne, Self::edge_ok)
    }

    // C6.
    pub fn no_spikes(&self) -> Option<u32>
        ensures { Found (SpikeOk self.now) (2 * self.now.ne) result }
    {
        first_wrong(self, 2 * self.ne, Self::spike_ok)
    }
}

impl LinkedMesh<'_> {
    // C2.
    pub fn all_undo(&self) -> Option<u32>
        ensures { Found (UndoOk self.now.mesh) (2 * self.now.mesh.ne) result }
    {
        first_wrong(self, 2 * self.mesh.ne, Self::undo_ok)
    }

    // C3.
    pub fn all_sewn(&self) -> Option<u32>
        ensures { Found (SewOk self.now.mesh) (2 * self.now.mesh.ne) result }
    {
        first_wrong(self, 2 * self.mesh.ne, Self::sew_ok)
    }
}

impl SewnMesh<'_> {
    // The first half of C4.
    pub fn all_bear(&self) -> Option<u32>
        ensures { Found (BearsOk self.now.mesh) self.now.mesh.nf result }
    {
        first_wrong(self, self.mesh.nf, Self::bears_ok)
    }

    // The first half of C7.
    pub fn all_long(&self) -> Option<u32>
        ensures { Found (LongOk self.now.mesh) self.now.mesh.nf result }
    {
        first_wrong(self, self.mesh.nf, Self::long_ok)
    }

    // The first half of C8.
    pub fn all_leave(&self) -> Option<u32>
        ensures { Found (LeavesOk self.now.mesh) self.now.mesh.nv result }
    {
        first_wrong(self, self.mesh.nv, Self::leaves_ok)
    }
}
