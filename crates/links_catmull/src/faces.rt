// Faces divided around a new vertex, two halfedges of the split loop a part.

ghost use Rattle.std.specs.Prelude.{◌≡◌, [], suc, ◌<◌, ◌≤◌, ◌*◌, ◌%◌};
ghost use Rattle.scope.specs.Lists.{each};
ghost use Rattle.scope.specs.Links.{Links};
ghost use Rattle.scope.specs.Edits.{petals};
ghost use Rattle.scope.specs.Passes.{pairs, catmull_face};
ghost use Rattle.laws_mesh.proofs.Loops.{steps};
ghost use Rattle.laws_mesh.proofs.FromOld.{first-old};
ghost use Rattle.mesh.specs.Words.{next_at};
ghost use Rattle.links_edits.specs.Held.{held};
ghost use Rattle.links_edits.specs.Lent.{links_in, SameSlices};
ghost use Rattle.links_catmull.specs.Steps.{FanReady, parts, FaceOk, FacesOk};

use links_edits::lent::Lent;
use links_edits::petal::{Slice, petal};
use links_split::first_old;
use mesh::half::next;
use mesh::rows::set_out;
use mesh_walk::lengths::loop_length;

// The one after i in a ring of n.
fn after(i: u32, n: u32) -> u32
    requires { i < n }
    ensures { result ≡ suc i % n }
{
    if i + 1 == n { 0 } else { i + 1 }
}

// The loop from a, 2n halfedges, becomes n faces around the centre c: the first is f, the others are new, from g on. The spokes are the edges from e on.
fn fan(edges: &mut [u32], faces: &mut [u32], c: u32, e: u32, g: u32, f: u32, a: u32, n: u32)
    requires { FanReady edges.old faces.old c e g f a n }
    ensures edges_after { edges.new ≡ (petals c e n 0 (pairs f g (steps (next_at edges.old) a (2 * n))) (held 0 0 0 [] edges.old faces.old)).edges }
    ensures faces_after { faces.new ≡ (petals c e n 0 (pairs f g (steps (next_at edges.old) a (2 * n))) (held 0 0 0 [] edges.old faces.old)).faces }
{
    let mut h = a;
    let mut own = f;
    for i in 0..n {
        let b = next(edges, h);
        let then = next(edges, b);
        let home = 2 * (e + after(i, n));
        let part = Slice { a: h, b, g: own };
        petal(edges, faces, c, 2 * (e + i) + 1, home, part);
        h = then;
        own = g + i;
    }
}

// Where the loop of face f is cut into parts, and how many they are.
fn parts_of(m: &Lent, old: u32, f: u32) -> (u32, u32)
    requires { FaceOk old f (links_in m.now) }
    ensures from { result.0 ≡ first-old old f (links_in m.now) }
    ensures number { result.1 ≡ parts old f (links_in m.now) }
{
    let a = first_old(m.edges, m.faces, old, f);
    let n = loop_length(m.edges, m.e as usize, a) / 2;
    (a, n as u32)
}

// Face f, its edges split, around a new vertex.
fn catmull_face(m: &mut Lent, old: u32, f: u32)
    requires few { m.old.v ≤ 1048576 }
    requires face_ok { FaceOk old f (links_in m.old) }
    ensures same_slices { SameSlices m.old m.new }
    ensures links_after { links_in m.new ≡ catmull_face old f (links_in m.old) }
{
    let (a, n) = parts_of(m, old, f);
    fan(m.edges, m.faces, m.v, m.e, m.f, f, a, n);
    set_out(m.outs, m.v, 2 * m.e + 1);
    m.v += 1;
    m.e += n;
    m.f += n - 1;
}

// Each face of a mesh whose edges were split; old is the number of vertices before.
pub fn split_faces(m: &mut Lent, old: u32)
    requires { FacesOk old (links_in m.old) }
    ensures same_slices { SameSlices m.old m.new }
    ensures links_after { links_in m.new ≡ each m.old.f (catmull_face old) (links_in m.old) }
{
    for f in 0..m.f {
        catmull_face(m, old, f);
    }
}
