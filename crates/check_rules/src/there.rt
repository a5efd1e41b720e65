// Which elements are there, in range and not marked, and the links of a halfedge.

ghost use Rattle.std.specs.Prelude.{◌≡◌, ◌⊎◌, ◌*◌, ◌<◌, ◌≤◌, length};
ghost use Rattle.laws_check.specs.Tells.{Tells};
ghost use Rattle.check_rules.specs.OnMesh.{HasFace, HasHalf, HasVertex};
ghost use Rattle.check_rules.specs.Place.{Half, Live, Lower};
ghost use Rattle.mesh.specs.Words.{face_at, head_at, next_at, prev_at, tail_at};
ghost use Rattle.scope.specs.Links.{NONE};

use crate::states::Mesh;
use mesh::half;
use mesh::half::NONE;

pub fn live(marks: &[u8], n: u32, x: u32) -> bool
    requires { n ≤ length marks.now }
    ensures { Tells result (Live marks.now n x) }
{
    x < n && marks[x as usize] == 0
}

pub fn live_half(marks: &[u8], n: u32, h: u32) -> bool
    requires { n ≤ length marks.now }
    ensures { Tells result (Half marks.now n h) }
{
    live(marks, n, h / 2)
}

// A link that may be none.
pub fn none_or_live(marks: &[u8], n: u32, x: u32) -> bool
    requires { n ≤ length marks.now }
    ensures { Tells result ((x ≡ NONE) ⊎ Live marks.now n x) }
{
    x == NONE || live(marks, n, x)
}

pub fn none_or_half(marks: &[u8], n: u32, h: u32) -> bool
    requires { n ≤ length marks.now }
    ensures { Tells result ((h ≡ NONE) ⊎ Half marks.now n h) }
{
    h == NONE || live_half(marks, n, h)
}

impl Mesh<'_> {
    pub fn live_vertex(&self, v: u32) -> bool
        ensures { Tells result (HasVertex self.now v) }
    {
        live(self.vmarks, self.nv, v)
    }

    pub fn live_half(&self, h: u32) -> bool
        ensures { Tells result (HasHalf self.now h) }
    {
        live_half(self.emarks, self.ne, h)
    }

    pub fn live_face(&self, f: u32) -> bool
        ensures { Tells result (HasFace self.now f) }
    {
        live(self.fmarks, self.nf, f)
    }

    pub fn face(&self, h: u32) -> u32
        requires { h < 2 * self.now.ne }
        ensures { result ≡ face_at self.now.edges.now h }
    {
        half::face(self.edges, h)
    }

    pub fn head(&self, h: u32) -> u32
        requires { h < 2 * self.now.ne }
        ensures { result ≡ head_at self.now.edges.now h }
    {
        half::head(self.edges, h)
    }

    pub fn next(&self, h: u32) -> u32
        requires { h < 2 * self.now.ne }
        ensures { result ≡ next_at self.now.edges.now h }
    {
        half::next(self.edges, h)
    }

    pub fn prev(&self, h: u32) -> u32
        requires { h < 2 * self.now.ne }
        ensures { result ≡ prev_at self.now.edges.now h }
    {
        half::prev(self.edges, h)
    }

    pub fn tail(&self, h: u32) -> u32
        requires { h < 2 * self.now.ne }
        ensures { result ≡ tail_at self.now.edges.now h }
    {
        self.head(half::partner(h))
    }
}

// The lower of two places that may be none.
pub fn lower(a: Option<u32>, b: Option<u32>) -> Option<u32>
    ensures { Lower a b result }
{
    match (a, b) {
        (Some(p), Some(q)) => Some(p.min(q)),
        _ => a.or(b),
    }
}
