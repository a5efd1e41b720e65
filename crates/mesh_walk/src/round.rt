// Rounds of halfedges: around a face by next, around a vertex by turn.

ghost use Rattle.std.specs.Prelude.{◌≡◌, ℕ, List, length, ◌*◌, ◌^◌, ◌<◌};
ghost use Rattle.std.specs.Iterator.{YieldsFirst, item_count};
ghost use Rattle.scope.specs.Lists.{round};
ghost use Rattle.mesh.specs.Words.{Has, next_at, turn_at};
ghost use Rattle.mesh.specs.Rounds.{Walk};
ghost use Rattle.mesh_walk.specs.Rounds.{Meets, left_of};

use mesh::half::{next, turn};
use std::marker::PhantomData;

// What leads from a halfedge to the one after it.
pub trait Step {
    ghost at: { List ℕ → ℕ → ℕ };

    fn step(edges: &[u32], h: u32) -> u32
        requires { Has edges.now h }
        ensures { result ≡ at edges.now h };
}

// Around a face.
pub struct ByNext;

impl Step for ByNext {
    ghost at = { next_at };

    fn step(edges: &[u32], h: u32) -> u32 {
        next(edges, h)
    }
}

// Around the vertex that a halfedge leaves.
pub struct ByTurn;

impl Step for ByTurn {
    ghost at = { turn_at };

    fn step(edges: &[u32], h: u32) -> u32 {
        turn(edges, h)
    }
}

// The halfedges from one on, until it comes again; at most so many as are left.
#[derive(Drop)]
pub struct Round<'a, S> {
    edges: &'a [u32],
    first: u32,
    at: u32,
    left: usize,
    by: PhantomData<S>,
}

impl<'a, S: Step> Round<'a, S> {
    // From h, among n edges.
    pub fn new(edges: &'a [u32], n: usize, h: u32) -> Self
        requires { Walk S.at edges.now n h }
        ensures items { left_of S.at result ≡ round h (S.at edges.now) (2 * n) h }
        ensures fits { length (left_of S.at result) < 2 ^ 64 }
        ensures meets { Meets (S.at result.edges.now) result.edges.now result.at }
    {
        Round {
            edges,
            first: h,
            at: h,
            left: 2 * n, // as many as there are halfedges
            by: PhantomData,
        }
    }
}

impl<'a, S: Step> Iterator for Round<'a, S> {
    type Item = u32;

    ghost can_next = { λ s. Meets (S.at s.edges.now) s.edges.now s.at };

    ghost next_gives = { YieldsFirst (λ s. left_of S.at s) };

    ghost remaining = { item_count (λ s. left_of S.at s) };

    fn next(&mut self) -> Option<u32> {
        if self.left == 0 {
            return None;
        }
        let x = self.at;
        let y = S::step(self.edges, x);
        self.at = y;
        self.left = if y == self.first { 0 } else { self.left - 1 };
        Some(x)
    }
}
