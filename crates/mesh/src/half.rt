// Partners, and the single links of the halfedges: h has face, head, next, prev at 4h .. 4h + 3 of the edges. One function for each link, as
// `next(edges, h)` says what a const parameter in `link::<2>(edges, h)` would not.

ghost use Rattle.std.specs.Prelude.{◌≡◌};
ghost use Rattle.scope.specs.Links.{partner};
ghost use Rattle.mesh.specs.Words.{face_at, head_at, next_at, prev_at, tail_at, turn_at, set_face, set_head, set_next, set_prev, linked, Has};

// No face, no halfedge: a word of the slices, whose form is document 01's and the C interface's.
pub const NONE: u32 = 4294967295;

// The other half of h's edge.
pub fn partner(h: u32) -> u32
    ensures { result ≡ partner h }
{
    h ^ 1
}

pub fn face(edges: &[u32], h: u32) -> u32
    requires { Has edges.now h }
    ensures { result ≡ face_at edges.now h }
{
    edges[4 * (h as usize)]
}

pub fn head(edges: &[u32], h: u32) -> u32
    requires { Has edges.now h }
    ensures { result ≡ head_at edges.now h }
{
    edges[4 * (h as usize) + 1]
}

pub fn next(edges: &[u32], h: u32) -> u32
    requires { Has edges.now h }
    ensures { result ≡ next_at edges.now h }
{
    edges[4 * (h as usize) + 2]
}

pub fn prev(edges: &[u32], h: u32) -> u32
    requires { Has edges.now h }
    ensures { result ≡ prev_at edges.now h }
{
    edges[4 * (h as usize) + 3]
}

pub fn tail(edges: &[u32], h: u32) -> u32
    requires { Has edges.now (partner h) }
    ensures { result ≡ tail_at edges.now h }
{
    head(edges, partner(h))
}

// The next halfedge around the vertex that h leaves.
pub fn turn(edges: &[u32], h: u32) -> u32
    requires { Has edges.now h }
    ensures { result ≡ turn_at edges.now h }
{
    partner(prev(edges, h))
}

pub fn set_face(edges: &mut [u32], h: u32, f: u32)
    requires { Has edges.old h }
    ensures { edges.new ≡ set_face edges.old h f }
{
    edges[4 * (h as usize)] = f;
}

pub fn set_head(edges: &mut [u32], h: u32, v: u32)
    requires { Has edges.old h }
    ensures { edges.new ≡ set_head edges.old h v }
{
    edges[4 * (h as usize) + 1] = v;
}

pub fn set_next(edges: &mut [u32], h: u32, n: u32)
    requires { Has edges.old h }
    ensures { edges.new ≡ set_next edges.old h n }
{
    edges[4 * (h as usize) + 2] = n;
}

pub fn set_prev(edges: &mut [u32], h: u32, p: u32)
    requires { Has edges.old h }
    ensures { edges.new ≡ set_prev edges.old h p }
{
    edges[4 * (h as usize) + 3] = p;
}

// a, then b.
pub fn link(edges: &mut [u32], a: u32, b: u32)
    requires has { Has edges.old a }
    requires has_2 { Has edges.old b }
    ensures { edges.new ≡ linked edges.old a b }
{
    edges[4 * (a as usize) + 2] = b;
    edges[4 * (b as usize) + 3] = a;
}
