// The mesh that a pass reads: shared slices, with what the rules ask of them.

ghost use Rattle.std.specs.Prelude.{length, ◌≤◌, ◌+◌, ◌*◌};
ghost use Rattle.points_catmull.specs.Sums.{Halves, Outs, Starts};

use scope::records::Counts;

// The edges, and the points of the vertices.
#[derive(Clone, Copy)]
pub struct Cage<'a> {
    pub edges: &'a [u32],
    pub points: &'a [f64],
    pub c: Counts,
    pub ghost halves: { Halves c edges.now },
    pub ghost v_in_bounds: { 3 * c.v ≤ length points.now },
}

// The halfedges that the faces name.
#[derive(Clone, Copy)]
pub struct Faces<'a> {
    pub cage: Cage<'a>,
    pub starts: &'a [u32],
    pub ghost starts_in: { Starts cage.c starts.now },
}

// The halfedges that the vertices name.
#[derive(Clone, Copy)]
pub struct Vertices<'a> {
    pub cage: Cage<'a>,
    pub outs: &'a [u32],
    pub ghost outs_in: { Outs cage.c outs.now cage.edges.now },
}

// A cage with the work slice, which has a place for each new point.
#[derive(Clone, Copy)]
pub struct Pass<'a, 'w> {
    pub cage: Cage<'a>,
    pub work: &'w [f64],
    pub ghost room: { 3 * (cage.c.v + cage.c.e + cage.c.f) ≤ length work.now },
}
