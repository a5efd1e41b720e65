// The points of one Catmull-Clark pass. The work slice takes the new points in the order vertices, edges, faces, three numbers each; the face points go
// there first and the edge points next, so that each is worked out once and read where it is wanted.

ghost use Rattle.std.specs.Prelude.{◌≡◌, map, length, ◌≤◌, ◌<◌, ◌+◌, ◌*◌, ◌/◌};
ghost use Rattle.scope.specs.Lists.{over};
ghost use Rattle.scope.specs.Points.{catmull_points};
ghost use Rattle.mesh.specs.Words.{face_at};
ghost use Rattle.mesh.specs.Rounds.{turns_at, rim_edge_at};
ghost use Rattle.points_catmull.specs.Place.{place, made};
ghost use Rattle.points_catmull.specs.Cages.{edge_slot, edges_in, face_slot, vertices_in};
ghost use Rattle.points_catmull.specs.Sums.{Halves, Starts, Outs, Inside, mesh_of, slot, head_point, summed};
ghost use Rattle.points_catmull.specs.Catmull.{edge_by, rim_edges, vertex_by, ring_of, joined};

use crate::cage::{Cage, Faces, Pass, Vertices};
use crate::sums::Sum;
use mesh::half::{NONE, face};
use mesh::rim::{rim, rim_edge};
use mesh::rows::{load_point, out, store_point};
use mesh_walk::round::{ByTurn, Round};
use points::{cc_edge, cc_inner, mean, middle, zero};
use scope::records::{Counts, Point};

// The sums of face points and of neighbours around a vertex; how many there are of both is its valence.
#[derive(Clone, Copy)]
pub struct Ring {
    pub faces: Point,
    pub heads: Sum,
}

impl<'a, 'w> Pass<'a, 'w> {
    // The point of h's face.
    fn face_point(&self, h: u32) -> Point
        requires h_bound { h < 2 * self.now.cage.c.e }
        requires faced { face_at self.now.cage.edges.now h < self.now.cage.c.f }
        ensures { result ≡ face_slot self.now (face_at self.now.cage.edges.now h) }
    {
        let at = (self.cage.c.v + self.cage.c.e) as u32;
        load_point(self.work, at + face(self.cage.edges, h))
    }

    // The point of edge e, once the face points are there.
    fn edge_point(&self, update: bool, e: u32) -> Point
        requires { e < self.now.cage.c.e }
        ensures { result ≡ edge_by (face_slot self.now) update (edges_in self.now.cage) self.now.cage.points.now e }
    {
        let a = self.cage.head_point(2 * e);
        let b = self.cage.head_point(2 * e + 1);
        if !update || rim_edge(self.cage.edges, e) {
            return middle(a, b);
        }
        cc_edge(a, b, self.face_point(2 * e), self.face_point(2 * e + 1))
    }

    // The sum with the point of h's edge, if that is on the rim.
    fn join_rim(&self, s: Sum, h: u32) -> Sum
        requires h_bound { h < 2 * self.now.cage.c.e }
        requires count_bound { s.count ≤ 2097152 }
        ensures { result ≡ joined (rim_edge_at self.now.cage.edges.now (h / 2)) s (edge_slot self.now (h / 2)) }
    {
        let e = h / 2;
        if rim_edge(self.cage.edges, e) {
            s.plus(load_point(self.work, self.cage.c.v as u32 + e))
        } else {
            s
        }
    }

    // p plus the points of the rim edges around the vertex that h leaves.
    fn rim_sum(&self, h: u32, p: Point) -> Sum
        requires { h < 2 * self.now.cage.c.e }
        ensures { result ≡ summed p (map (edge_slot self.now) (rim_edges (edges_in self.now.cage) (turns_at self.now.cage.edges.now self.now.cage.c.e h))) }
    {
        let mut s = Sum { total: p, count: 0 };
        for k in Round::<ByTurn>::new(self.cage.edges, self.cage.c.e, h) {
            s = self.join_rim(s, k);
        }
        s
    }

    // Both sums around the vertex that h leaves, in one turn.
    fn inner_ring(&self, h: u32) -> Ring
        requires h_bound { h < 2 * self.now.cage.c.e }
        requires inside { Inside self.now.cage.edges.now h }
        ensures { result ≡ ring_of (λ k. face_slot self.now (face_at self.now.cage.edges.now k)) (head_point self.now.cage.edges.now self.now.cage.points.now) (turns_at self.now.cage.edges.now self.now.cage.c.e h) }
    {
        let mut faces = zero();
        let mut heads = Sum {
            total: zero(),
            count: 0,
        };
        for k in Round::<ByTurn>::new(self.cage.edges, self.cage.c.e, h) {
            faces = faces + self.face_point(k);
            heads = heads.plus(self.cage.head_in(self.cage.points, k));
        }
        Ring { faces, heads }
    }
}

impl<'a> Cage<'a> {
    fn put_edges(&self, update: bool, work: &mut [f64])
        requires { 3 * (self.now.c.v + self.now.c.e + self.now.c.f) ≤ length work.old }
        ensures { work.new ≡ place (3 * self.now.c.v) (made (edge_by (slot work.old (self.now.c.v + self.now.c.e)) update (edges_in self.now) self.now.points.now) self.now.c.e) work.old }
    {
        let at = self.c.v as u32;
        for e in 0..self.c.e as u32 {
            let p = Pass { cage: *self, work }.edge_point(update, e);
            store_point(work, at + e, p);
        }
    }
}

impl<'a> Vertices<'a> {
    // The point of vertex v, once the edge points and the face points are there.
    fn point(&self, work: &[f64], update: bool, v: u32) -> Point
        requires room { 3 * (self.now.cage.c.v + self.now.cage.c.e + self.now.cage.c.f) ≤ length work.now }
        requires v_lt_v { v < self.now.cage.c.v }
        ensures { result ≡ vertex_by (slot work.now (self.now.cage.c.v + self.now.cage.c.e)) (slot work.now self.now.cage.c.v) update (vertices_in self.now) self.now.cage.points.now v }
    {
        let pass = Pass {
            cage: self.cage,
            work,
        };
        let p = load_point(self.cage.points, v);
        if !update {
            return p;
        }
        let h = out(self.outs, v);
        if h == NONE {
            return mean(p, 1);
        }
        if rim(self.cage.edges, h) {
            let s = pass.rim_sum(h, p);
            return mean(s.total, s.count + 1);
        }
        let r = pass.inner_ring(h);
        cc_inner(r.faces, r.heads.total, p, r.heads.count)
    }

    fn put(&self, update: bool, work: &mut [f64])
        requires { 3 * (self.now.cage.c.v + self.now.cage.c.e + self.now.cage.c.f) ≤ length work.old }
        ensures { work.new ≡ place 0 (made (vertex_by (slot work.old (self.now.cage.c.v + self.now.cage.c.e)) (slot work.old self.now.cage.c.v) update (vertices_in self.now) self.now.cage.points.now) self.now.cage.c.v) work.old }
    {
        for v in 0..self.cage.c.v as u32 {
            let p = self.point(work, update, v);
            store_point(work, v, p);
        }
    }
}

// All new points of a pass: vertices, edges, faces.
pub fn catmull_points<'a>(
    outs: &'a [u32],
    edges: &'a [u32],
    faces: &'a [u32],
    points: &'a [f64],
    c: Counts,
    update: bool,
    work: &mut [f64],
)
    requires halves { Halves c edges.now }
    requires outs { Outs c outs.now edges.now }
    requires starts { Starts c faces.now }
    requires v_in_bounds { 3 * c.v ≤ length points.now }
    requires f_in_bounds { 3 * (c.v + c.e + c.f) ≤ length work.old }
    ensures { work.new ≡ over (catmull_points update (mesh_of c outs.now edges.now faces.now) points.now) work.old }
{
    let cage = Cage { edges, points, c };
    Faces {
        cage,
        starts: faces,
    }
    .put(work);
    cage.put_edges(update, work);
    Vertices { cage, outs }.put(update, work);
}
