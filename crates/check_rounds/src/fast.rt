// C4 and C8 as a whole, by counting: where the loops of all faces are together as long as the halfedges with a face are many, they hold them all.

ghost use Rattle.std.specs.Prelude.{◌≡◌, true, ℕ, ◌+◌, ◌*◌, ◌<◌};
ghost use Rattle.check_rounds.specs.OnMesh.{IsTurned};
ghost use Rattle.check_rounds.specs.OnParts.{FaceTour, FacesBear, LowOffLoop, VertexTour, VerticesLeave};
ghost use Rattle.check_rounds.specs.Tour.{bearing, unmarked};
ghost use Rattle.laws_mesh.specs.Count.{bit, count};

use crate::low::lowest_off_loop;
use crate::parts::{SewnFaces, SewnHalves, SewnVertices};
use check_rules::states::SewnMesh;
use check_rules::there::live;
use mesh::half::NONE;
use mesh_walk::lengths::{loop_length, turn_length};

// What face f adds to a tour of the faces before it.
fn face_length(m: &SewnFaces, f: u32) -> usize
    requires all_bear { FacesBear m.now }
    requires f_lt_nf { f < m.now.nf }
    ensures { (t : ℕ) → FaceTour m.now f t → FaceTour m.now (f + 1) (t + result) }
{
    if !live(m.fmarks, m.nf, f) {
        return 0;
    }
    loop_length(m.halves.edges, m.halves.ne as usize, m.faces[f as usize])
}

// What vertex v adds to a tour of the vertices before it.
fn vertex_length(m: &SewnVertices, v: u32) -> usize
    requires all_leave { VerticesLeave m.now }
    requires v_lt_nv { v < m.now.nv }
    ensures { (t : ℕ) → VertexTour m.now v t → VertexTour m.now (v + 1) (t + result) }
{
    if !live(m.vmarks, m.nv, v) {
        return 0;
    }
    let h = m.outs[v as usize];
    if h == NONE {
        return 0;
    }
    turn_length(m.halves.edges, m.halves.ne as usize, h)
}

// The length of all faces' loops. This and the next stand apart: over a tour of either kind, one loop would be handed the tour, its length and its step.
fn faces_total(m: &SewnFaces) -> usize
    requires { FacesBear m.now }
    ensures { FaceTour m.now m.now.nf result }
{
    let mut total = 0;
    for f in 0..m.nf {
        total += face_length(m, f);
    }
    total
}

// The length of all vertices' turns.
fn vertices_total(m: &SewnVertices) -> usize
    requires { VerticesLeave m.now }
    ensures { VertexTour m.now m.now.nv result }
{
    let mut total = 0;
    for v in 0..m.nv {
        total += vertex_length(m, v);
    }
    total
}

// One for a halfedge that is there.
fn half_bit(m: &SewnHalves, h: u32) -> usize
    requires { h < 2 * m.now.ne }
    ensures { result ≡ bit (unmarked m.now.emarks.now h) }
{
    if m.emarks[(h / 2) as usize] == 0 {
        1
    } else {
        0
    }
}

// One for a halfedge that is there and bears a face.
fn bearing_bit(m: &SewnHalves, h: u32) -> usize
    requires { h < 2 * m.now.ne }
    ensures { result ≡ bit (bearing m.now.edges.now m.now.emarks.now h) }
{
    if m.emarks[(h / 2) as usize] == 0 && m.face(h) != NONE {
        1
    } else {
        0
    }
}

// How many halfedges are there, and how many of them bear a face: sums of bits, since with `filter` and `count` the check of a large face takes a twentieth longer.
fn half_count(m: &SewnHalves) -> usize
    ensures { result ≡ count (unmarked m.now.emarks.now) (2 * m.now.ne) }
{
    let mut total = 0;
    for h in 0..2 * m.ne {
        total += half_bit(m, h);
    }
    total
}

fn bearing_count(m: &SewnHalves) -> usize
    ensures { result ≡ count (bearing m.now.edges.now m.now.emarks.now) (2 * m.now.ne) }
{
    let mut total = 0;
    for h in 0..2 * m.ne {
        total += bearing_bit(m, h);
    }
    total
}

// The second half of C4, where the first holds everywhere: linear unless it is broken.
pub fn low_off_loop(m: &SewnFaces) -> Option<u32>
    requires { FacesBear m.now }
    ensures { LowOffLoop m.now result }
{
    if faces_total(m) == bearing_count(&m.halves) {
        return None;
    }
    lowest_off_loop(m)
}

// Whether C8 is in order everywhere; a false answer says nothing.
pub fn turns_whole(m: &SewnMesh) -> bool
    ensures { result ≡ true → IsTurned m.now.mesh }
{
    let vertices = SewnVertices::of(m);
    m.all_leave().is_none() && vertices_total(&vertices) == half_count(&vertices.halves)
}
