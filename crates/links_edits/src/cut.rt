// The cut across a face: a new edge, and a new face for the part that is cut off.

ghost use Rattle.std.specs.Prelude.{◌≡◌, [], ◌∷◌, length, set, ◌<◌};
ghost use Rattle.scope.specs.Links.{Links};
ghost use Rattle.scope.specs.Edits.{cut_off};
ghost use Rattle.mesh.specs.Words.{next_at, prev_at, set_face, Has};
ghost use Rattle.links_edits.specs.Held.{held};
ghost use Rattle.links_edits.specs.Cut.{gap_of, closed, divided, cut_three, painted, AllHave, CloseOk, GapOk, CutOk};

use mesh::half::{face, head, next, prev, set_face, set_next, set_prev, tail};
use mesh::rows::{set_start, start, store_edge};
use scope::records::{Edge, Halfedge};

// Where face f is cut: the new edge leads from p's head to n's tail. The part that is cut off is from a, after p, to b, before n.
#[derive(Clone, Copy)]
pub struct Gap {
    pub p: u32,
    pub n: u32,
    pub a: u32,
    pub b: u32,
    pub f: u32,
}

// Half h of the new edge comes between p and n, half k between b and a.
#[tactic(auto, unfolding(crate::specs::Cut::closed))]
fn close(edges: &mut [u32], x: Gap, h: u32, k: u32)
    requires { CloseOk edges.old x }
    ensures { edges.new ≡ closed edges.old x h k }
{
    set_prev(edges, x.a, k);
    set_next(edges, x.b, k);
    set_next(edges, x.p, h);
    set_prev(edges, x.n, h);
}

// The new edge ne, with face f on both sides.
#[tactic(auto, unfolding(crate::specs::Cut::divided))]
pub fn divide(edges: &mut [u32], ne: u32, x: Gap)
    requires { GapOk edges.old ne x }
    ensures { edges.new ≡ divided edges.old ne x }
{
    let there = Halfedge {
        face: x.f,
        head: tail(edges, x.n),
        next: x.n,
        prev: x.p,
    };
    let back = Halfedge {
        face: x.f,
        head: head(edges, x.p),
        next: x.a,
        prev: x.b,
    };
    let halves = [there, back];
    store_edge(edges, ne, Edge { halves });
    close(edges, x, 2 * ne, 2 * ne + 1);
}

// Face g for all of hs, in this order.
#[tactic(auto, unfolding(crate::specs::Cut::painted))]
pub fn paint(edges: &mut [u32], g: u32, hs: &[u32])
    requires { AllHave edges.old hs.now }
    ensures { edges.new ≡ painted edges.old g hs.now }
{
    for h in hs {
        set_face(edges, *h, g);
    }
}

// The new edge ne, where a and b are all that is cut off: with it they get the new face g.
#[tactic(auto, unfolding(crate::specs::Cut::cut_three, crate::specs::Cut::painted))]
pub fn cut_off(edges: &mut [u32], ne: u32, x: Gap, g: u32)
    requires { GapOk edges.old ne x }
    ensures { edges.new ≡ cut_three edges.old ne x g }
{
    divide(edges, ne, x);
    paint(edges, g, &[2 * ne + 1, x.a, x.b]);
}

// The gap from p to n, of p's face.
fn look_across(edges: &[u32], p: u32, n: u32) -> Gap
    requires has_p { Has edges.now p }
    requires has_n { Has edges.now n }
    ensures { result ≡ gap_of edges.now p n }
{
    Gap {
        p,
        n,
        a: next(edges, p),
        b: prev(edges, n),
        f: face(edges, p),
    }
}

// Face g starts at k, and face f at s.
fn restart(faces: &mut [u32], g: u32, k: u32, f: u32, s: u32)
    requires g_in_bounds { g < length faces.old }
    requires f_in_bounds { f < length faces.old }
    ensures { faces.new ≡ set (set faces.old g k) f s }
{
    set_start(faces, g, k);
    set_start(faces, f, s);
}

// Cuts `part` off the face of p, from the halfedge after p to the one before n, by edge ne; it and the edge's second half get face g.
fn cut_part(edges: &mut [u32], faces: &mut [u32], ne: u32, g: u32, p: u32, n: u32, part: &[u32])
    requires { CutOk edges.old faces.old ne g p n part.now }
    ensures edges_after { edges.new ≡ (cut_off p n (held 0 ne g [] edges.old faces.old)).edges }
    ensures faces_after { faces.new ≡ (cut_off p n (held 0 ne g [] edges.old faces.old)).faces }
{
    let x = look_across(edges, p, n);
    let h = 2 * ne;
    divide(edges, ne, x);
    set_face(edges, h + 1, g);
    paint(edges, g, part);
    let s = start(faces, x.f);
    let gone = s == h + 1 || part.contains(&s);
    restart(faces, g, h + 1, x.f, if gone { h } else { s });
}

// Cuts two halfedges off the face of p, from the one after p to the one before n, by edge ne; they and its second half get face g.
pub fn cut_three(edges: &mut [u32], faces: &mut [u32], ne: u32, g: u32, p: u32, n: u32)
    requires { CutOk edges.old faces.old ne g p n (next_at edges.old p ∷ prev_at edges.old n ∷ []) }
    ensures edges_after { edges.new ≡ (cut_off p n (held 0 ne g [] edges.old faces.old)).edges }
    ensures faces_after { faces.new ≡ (cut_off p n (held 0 ne g [] edges.old faces.old)).faces }
{
    let part = [next(edges, p), prev(edges, n)];
    cut_part(edges, faces, ne, g, p, n, &part);
}

// The same where three are cut off, y in the middle. Both keep their names, by which docs/PROOFS.md states them.
pub fn cut_four(edges: &mut [u32], faces: &mut [u32], ne: u32, g: u32, p: u32, n: u32, y: u32)
    requires { CutOk edges.old faces.old ne g p n (next_at edges.old p ∷ y ∷ prev_at edges.old n ∷ []) }
    ensures edges_after { edges.new ≡ (cut_off p n (held 0 ne g [] edges.old faces.old)).edges }
    ensures faces_after { faces.new ≡ (cut_off p n (held 0 ne g [] edges.old faces.old)).faces }
{
    let part = [next(edges, p), y, prev(edges, n)];
    cut_part(edges, faces, ne, g, p, n, &part);
}
