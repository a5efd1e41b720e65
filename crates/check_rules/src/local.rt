// The rules that look at the links of one place.

ghost use Rattle.std.specs.Prelude.{length, ◌*◌, ◌<◌, ◌≤◌};
ghost use Rattle.laws_check.specs.Tells.{Tells};
ghost use Rattle.check_rules.specs.OnMesh.{BearsOk, EdgeOk, FaceOk, HalfedgeOk, LeavesOk, LongOk, NamedOk, SewOk, SpikeOk, UndoOk, VertexOk};
ghost use Rattle.check_rules.specs.Place.{Half, Live};
ghost use Rattle.check_rules.specs.Rule.{Bears, Chained, EdgesFit, Faced, ItemsFit, Leaves, LongEnough, Named, R1f, R1h, R1v, R2, R3, R5, R6, Rooted, Sewn};

use crate::states::{LinkedMesh, Mesh, SewnMesh};
use crate::there::{live, live_half, none_or_half, none_or_live};
use mesh::half::{NONE, face, head, next, partner, prev, tail};

// C1 at a vertex.
pub fn vertex_ok(outs: &[u32], vmarks: &[u8], emarks: &[u8], nv: u32, ne: u32, v: u32) -> bool
    requires items_fit { ItemsFit outs.now vmarks.now nv }
    requires ne_in_bounds { ne ≤ length emarks.now }
    requires v_lt_nv { v < nv }
    ensures { Tells result (Live vmarks.now nv v → R1v outs.now emarks.now ne v) }
{
    !live(vmarks, nv, v) || none_or_half(emarks, ne, outs[v as usize])
}

fn links_ok(
    edges: &[u32],
    vmarks: &[u8],
    emarks: &[u8],
    fmarks: &[u8],
    nv: u32,
    ne: u32,
    nf: u32,
    h: u32,
) -> bool
    requires edges_fit { EdgesFit edges.now emarks.now ne }
    requires nv_in_bounds { nv ≤ length vmarks.now }
    requires nf_in_bounds { nf ≤ length fmarks.now }
    requires h_bound { h < 2 * ne }
    ensures { Tells result (R1h edges.now vmarks.now emarks.now fmarks.now nv ne nf h) }
{
    none_or_live(fmarks, nf, face(edges, h))
        && live(vmarks, nv, head(edges, h))
        && live_half(emarks, ne, next(edges, h))
        && live_half(emarks, ne, prev(edges, h))
}

// C1 at a halfedge.
pub fn halfedge_ok(
    edges: &[u32],
    vmarks: &[u8],
    emarks: &[u8],
    fmarks: &[u8],
    nv: u32,
    ne: u32,
    nf: u32,
    h: u32,
) -> bool
    requires edges_fit { EdgesFit edges.now emarks.now ne }
    requires nv_in_bounds { nv ≤ length vmarks.now }
    requires nf_in_bounds { nf ≤ length fmarks.now }
    requires h_bound { h < 2 * ne }
    ensures { Tells result (Half emarks.now ne h → R1h edges.now vmarks.now emarks.now fmarks.now nv ne nf h) }
{
    !live_half(emarks, ne, h) || links_ok(edges, vmarks, emarks, fmarks, nv, ne, nf, h)
}

// C1 at a face.
pub fn face_ok(faces: &[u32], fmarks: &[u8], emarks: &[u8], nf: u32, ne: u32, f: u32) -> bool
    requires items_fit { ItemsFit faces.now fmarks.now nf }
    requires ne_in_bounds { ne ≤ length emarks.now }
    requires f_lt_nf { f < nf }
    ensures { Tells result (Live fmarks.now nf f → R1f faces.now emarks.now ne f) }
{
    !live(fmarks, nf, f) || live_half(emarks, ne, faces[f as usize])
}

// C2.
pub fn undo_ok(edges: &[u32], emarks: &[u8], ne: u32, h: u32) -> bool
    requires edges_fit { EdgesFit edges.now emarks.now ne }
    requires chained { Chained edges.now emarks.now ne }
    requires h_bound { h < 2 * ne }
    ensures { Tells result (Half emarks.now ne h → R2 edges.now h) }
{
    !live_half(emarks, ne, h)
        || (next(edges, prev(edges, h)) == h && prev(edges, next(edges, h)) == h)
}

// C3.
pub fn sew_ok(edges: &[u32], emarks: &[u8], ne: u32, h: u32) -> bool
    requires edges_fit { EdgesFit edges.now emarks.now ne }
    requires chained { Chained edges.now emarks.now ne }
    requires h_bound { h < 2 * ne }
    ensures { Tells result (Half emarks.now ne h → R3 edges.now h) }
{
    if !live_half(emarks, ne, h) {
        return true;
    }
    let n = next(edges, h);
    tail(edges, n) == head(edges, h) && face(edges, n) == face(edges, h)
}

// C5.
pub fn edge_ok(edges: &[u32], emarks: &[u8], ne: u32, h: u32) -> bool
    requires edges_fit { EdgesFit edges.now emarks.now ne }
    requires h_bound { h < 2 * ne }
    ensures { Tells result (Half emarks.now ne h → R5 edges.now h) }
{
    !live_half(emarks, ne, h) || face(edges, h) != NONE || face(edges, partner(h)) != NONE
}

// C6.
pub fn spike_ok(edges: &[u32], emarks: &[u8], ne: u32, h: u32) -> bool
    requires edges_fit { EdgesFit edges.now emarks.now ne }
    requires h_bound { h < 2 * ne }
    ensures { Tells result (Half emarks.now ne h → R6 edges.now h) }
{
    !live_half(emarks, ne, h) || next(edges, h) != partner(h)
}

// C4's first half: the face's halfedge bears it.
pub fn bears_ok(
    edges: &[u32],
    emarks: &[u8],
    faces: &[u32],
    fmarks: &[u8],
    ne: u32,
    nf: u32,
    f: u32,
) -> bool
    requires edges_fit { EdgesFit edges.now emarks.now ne }
    requires items_fit { ItemsFit faces.now fmarks.now nf }
    requires faced { Faced edges.now emarks.now faces.now fmarks.now ne nf }
    requires f_lt_nf { f < nf }
    ensures { Tells result (Live fmarks.now nf f → Bears edges.now faces.now f) }
{
    !live(fmarks, nf, f) || face(edges, faces[f as usize]) == f
}

// C7's first half: three or more.
pub fn long_ok(
    edges: &[u32],
    emarks: &[u8],
    faces: &[u32],
    fmarks: &[u8],
    ne: u32,
    nf: u32,
    f: u32,
) -> bool
    requires edges_fit { EdgesFit edges.now emarks.now ne }
    requires items_fit { ItemsFit faces.now fmarks.now nf }
    requires sewn { Sewn edges.now emarks.now ne }
    requires faced { Faced edges.now emarks.now faces.now fmarks.now ne nf }
    requires f_lt_nf { f < nf }
    ensures { Tells result (Live fmarks.now nf f → LongEnough edges.now faces.now f) }
{
    if !live(fmarks, nf, f) {
        return true;
    }
    let s = faces[f as usize];
    next(edges, next(edges, s)) != s
}

// C8's first half: the vertex's halfedge leaves it.
pub fn leaves_ok(
    edges: &[u32],
    emarks: &[u8],
    outs: &[u32],
    vmarks: &[u8],
    ne: u32,
    nv: u32,
    v: u32,
) -> bool
    requires edges_fit { EdgesFit edges.now emarks.now ne }
    requires items_fit { ItemsFit outs.now vmarks.now nv }
    requires rooted { Rooted edges.now emarks.now outs.now vmarks.now ne nv }
    requires v_lt_nv { v < nv }
    ensures { Tells result (Live vmarks.now nv v → Leaves edges.now outs.now v) }
{
    if !live(vmarks, nv, v) {
        return true;
    }
    let h = outs[v as usize];
    h == NONE || tail(edges, h) == v
}

// C9 at a halfedge.
pub fn named_ok(
    edges: &[u32],
    emarks: &[u8],
    outs: &[u32],
    vmarks: &[u8],
    ne: u32,
    nv: u32,
    h: u32,
) -> bool
    requires edges_fit { EdgesFit edges.now emarks.now ne }
    requires items_fit { ItemsFit outs.now vmarks.now nv }
    requires rooted { Rooted edges.now emarks.now outs.now vmarks.now ne nv }
    requires h_bound { h < 2 * ne }
    ensures { Tells result (Named edges.now emarks.now outs.now ne h) }
{
    !live_half(emarks, ne, h) || face(edges, h) != NONE || outs[tail(edges, h) as usize] == h
}

// The same as methods, which the searches hand over: the types have what the rules ask of the slices.
impl Mesh<'_> {
    pub(crate) fn vertex_ok(&self, v: u32) -> bool
        requires { v < self.now.nv }
        ensures { Tells result (VertexOk self.now v) }
    {
        vertex_ok(self.outs, self.vmarks, self.emarks, self.nv, self.ne, v)
    }

    pub(crate) fn halfedge_ok(&self, h: u32) -> bool
        requires { h < 2 * self.now.ne }
        ensures { Tells result (HalfedgeOk self.now h) }
    {
        halfedge_ok(
            self.edges,
            self.vmarks,
            self.emarks,
            self.fmarks,
            self.nv,
            self.ne,
            self.nf,
            h,
        )
    }

    pub(crate) fn face_ok(&self, f: u32) -> bool
        requires { f < self.now.nf }
        ensures { Tells result (FaceOk self.now f) }
    {
        face_ok(self.faces, self.fmarks, self.emarks, self.nf, self.ne, f)
    }

    pub(crate) fn edge_ok(&self, h: u32) -> bool
        requires { h < 2 * self.now.ne }
        ensures { Tells result (EdgeOk self.now h) }
    {
        edge_ok(self.edges, self.emarks, self.ne, h)
    }

    pub(crate) fn spike_ok(&self, h: u32) -> bool
        requires { h < 2 * self.now.ne }
        ensures { Tells result (SpikeOk self.now h) }
    {
        spike_ok(self.edges, self.emarks, self.ne, h)
    }
}

impl LinkedMesh<'_> {
    pub(crate) fn undo_ok(&self, h: u32) -> bool
        requires { h < 2 * self.now.mesh.ne }
        ensures { Tells result (UndoOk self.now.mesh h) }
    {
        undo_ok(self.mesh.edges, self.mesh.emarks, self.mesh.ne, h)
    }

    pub(crate) fn sew_ok(&self, h: u32) -> bool
        requires { h < 2 * self.now.mesh.ne }
        ensures { Tells result (SewOk self.now.mesh h) }
    {
        sew_ok(self.mesh.edges, self.mesh.emarks, self.mesh.ne, h)
    }
}

impl SewnMesh<'_> {
    pub(crate) fn bears_ok(&self, f: u32) -> bool
        requires { f < self.now.mesh.nf }
        ensures { Tells result (BearsOk self.now.mesh f) }
    {
        let m = &self.mesh;
        bears_ok(m.edges, m.emarks, m.faces, m.fmarks, m.ne, m.nf, f)
    }

    pub(crate) fn long_ok(&self, f: u32) -> bool
        requires { f < self.now.mesh.nf }
        ensures { Tells result (LongOk self.now.mesh f) }
    {
        let m = &self.mesh;
        long_ok(m.edges, m.emarks, m.faces, m.fmarks, m.ne, m.nf, f)
    }

    pub(crate) fn leaves_ok(&self, v: u32) -> bool
        requires { v < self.now.mesh.nv }
        ensures { Tells result (LeavesOk self.now.mesh v) }
    {
        let m = &self.mesh;
        leaves_ok(m.edges, m.emarks, m.outs, m.vmarks, m.ne, m.nv, v)
    }

    pub fn named_ok(&self, h: u32) -> bool
        requires { h < 2 * self.now.mesh.ne }
        ensures { Tells result (NamedOk self.now.mesh h) }
    {
        let m = &self.mesh;
        named_ok(m.edges, m.emarks, m.outs, m.vmarks, m.ne, m.nv, h)
    }
}
