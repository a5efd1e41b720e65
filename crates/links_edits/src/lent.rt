// The links of a mesh in slices that were lent, with their counts: what a pass changes step by step.

ghost use Rattle.std.specs.Prelude.{◌≡◌, [], ◌∷◌, length, ◌<◌};
ghost use Rattle.scope.specs.Links.{Links, next, prev, start, more};
ghost use Rattle.scope.specs.Edits.{split_edge, petal, cut_off};
ghost use Rattle.scope.specs.Tally.{counts_of};
ghost use Rattle.mesh.specs.Words.{next_at, prev_at, Has};
ghost use Rattle.links_edits.specs.Split.{SplitOk};
ghost use Rattle.links_edits.specs.Petal.{part_of, PetalOk};
ghost use Rattle.links_edits.specs.Cut.{CutOk};
ghost use Rattle.links_edits.specs.Lent.{links_in, SameSlices};

use crate::cut::{cut_four, cut_three};
use crate::petal::{Slice, petal};
use crate::split::split_edge;
use mesh::half::{next, prev};
use mesh::rows::start;
use scope::records::Counts;

#[derive(Drop)]
pub struct Lent<'a> {
    pub v: u32,
    pub e: u32,
    pub f: u32,
    pub outs: &'a mut [u32],
    pub edges: &'a mut [u32],
    pub faces: &'a mut [u32],
}

impl Lent<'_> {
    #[tactic(auto, unfolding(scope::specs::Tally::counts_of))]
    pub fn counts(&self) -> Counts
        ensures { result ≡ counts_of (links_in self.now) }
    {
        Counts {
            v: self.v as usize,
            e: self.e as usize,
            f: self.f as usize,
        }
    }

    pub fn next(&self, h: u32) -> u32
        requires { Has self.now.edges.now h }
        ensures { result ≡ next (links_in self.now) h }
    {
        next(self.edges, h)
    }

    pub fn prev(&self, h: u32) -> u32
        requires { Has self.now.edges.now h }
        ensures { result ≡ prev (links_in self.now) h }
    {
        prev(self.edges, h)
    }

    // The halfedge that face f names.
    pub fn start(&self, f: u32) -> u32
        requires { f < length self.now.faces.now }
        ensures { result ≡ start (links_in self.now) f }
    {
        start(self.faces, f)
    }

    // Splits the edge of h by a new vertex.
    pub fn split_edge(&mut self, h: u32)
        requires few { self.old.v < 2147483648 }
        requires split_ok { SplitOk self.old.outs.now self.old.edges.now self.old.e h self.old.v }
        ensures same_slices { SameSlices self.old self.new }
        ensures links_after { links_in self.new ≡ more 1 0 0 (split_edge h self.old.v (links_in self.old)) }
    {
        split_edge(self.outs, self.edges, self.e, h, self.v);
        self.v += 1;
        self.e += 1;
    }

    // Part q becomes a face of its own around the centre c, with the spokes o and s.
    pub fn petal(&mut self, c: u32, o: u32, s: u32, q: Slice)
        requires { PetalOk self.old.edges.now self.old.faces.now o s (part_of q) }
        ensures same_slices { SameSlices self.old self.new }
        ensures links_after { links_in self.new ≡ petal c o s (part_of q) (links_in self.old) }
    {
        petal(self.edges, self.faces, c, o, s, q);
    }

    // Cuts two halfedges off the face of p, from the one after p to the one before n: with them a new edge's second half gets a new face.
    pub fn cut_three(&mut self, p: u32, n: u32)
        requires few { self.old.f < 2147483648 }
        requires cut_ok { CutOk self.old.edges.now self.old.faces.now self.old.e self.old.f p n (next_at self.old.edges.now p ∷ prev_at self.old.edges.now n ∷ []) }
        ensures same_slices { SameSlices self.old self.new }
        ensures links_after { links_in self.new ≡ cut_off p n (links_in self.old) }
    {
        cut_three(self.edges, self.faces, self.e, self.f, p, n);
        self.e += 1;
        self.f += 1;
    }

    // The same where three are cut off, y in the middle.
    pub fn cut_four(&mut self, p: u32, n: u32, y: u32)
        requires few { self.old.f < 2147483648 }
        requires cut_ok { CutOk self.old.edges.now self.old.faces.now self.old.e self.old.f p n (next_at self.old.edges.now p ∷ y ∷ prev_at self.old.edges.now n ∷ []) }
        ensures same_slices { SameSlices self.old self.new }
        ensures links_after { links_in self.new ≡ cut_off p n (links_in self.old) }
    {
        cut_four(self.edges, self.faces, self.e, self.f, p, n, y);
        self.e += 1;
        self.f += 1;
    }
}
