// A case: its head, and the mesh that is given or lent.

ghost use Rattle.std.specs.Prelude.{◌≡◌, ◌≤◌, length};

use crate::cell::fill_with_junk;
use crate::input::Parts;
use file_read::bytes::word;
use mesh::given::{Given, Slices};
use scope::records::Counts;
use std::array;
use std::io::Read;

// The lengths of the slices of a mesh.
#[derive(Clone, Copy)]
pub struct Lengths {
    pub outs: usize,
    pub edges: usize,
    pub faces: usize,
    pub vmarks: usize,
    pub emarks: usize,
    pub fmarks: usize,
    pub points: usize,
}

impl Lengths {
    fn new(words: &[usize]) -> Lengths
        requires { length words.now ≡ 7 }
    {
        Lengths {
            outs: words[0],
            edges: words[1],
            faces: words[2],
            vmarks: words[3],
            emarks: words[4],
            fmarks: words[5],
            points: words[6],
        }
    }
}

// What a case says of its call. `answer` is the number and the three values, the counts and the flag.
#[derive(Clone, Copy)]
pub struct Head {
    pub passes: u32,
    pub flag: bool,
    pub counts: Counts,
    pub given: Lengths,
    pub lent: Lengths,
    pub work: usize,
    pub answer: [usize; 8],
}

impl Head {
    pub fn new(bytes: &[u8; 112]) -> Head {
        let w: [usize; 28] = array::from_fn(|k| word(bytes, 4 * k));
        Head {
            passes: w[0] as u32,
            flag: w[1] == 1,
            counts: Counts {
                v: w[2],
                e: w[3],
                f: w[4],
            },
            given: Lengths::new(&w[5..12]),
            lent: Lengths::new(&w[12..19]),
            work: w[19],
            answer: [w[20], w[21], w[22], w[23], w[24], w[25], w[26], w[27]],
        }
    }

    // After the answers 1 to 4 all is as handed in.
    pub fn is_kept(&self) -> bool {
        1 <= self.answer[0] && self.answer[0] <= 4
    }
}

// Room for the mesh of the largest case, or for what the call makes of it.
#[derive(Drop)]
pub struct Mesh {
    pub outs: [u32; 4096],
    pub edges: [u32; 4096],
    pub faces: [u32; 4096],
    pub vmarks: [u8; 512],
    pub emarks: [u8; 512],
    pub fmarks: [u8; 512],
    pub points: [f64; 2048],
}

impl Mesh {
    pub fn new() -> Mesh {
        Mesh {
            outs: [0; 4096],
            edges: [0; 4096],
            faces: [0; 4096],
            vmarks: [0; 512],
            emarks: [0; 512],
            fmarks: [0; 512],
            points: [0.0; 2048],
        }
    }

    // The next seven parts. They are laid into the mesh of the case before: one that is made and handed on for each case is copied on its way.
    pub fn read<R: Read>(&mut self, parts: &mut Parts<R>) {
        parts.lay(&mut self.outs);
        parts.lay(&mut self.edges);
        parts.lay(&mut self.faces);
        parts.lay(&mut self.vmarks);
        parts.lay(&mut self.emarks);
        parts.lay(&mut self.fmarks);
        parts.lay(&mut self.points);
    }

    pub fn fill_with_junk(&mut self) {
        fill_with_junk(&mut self.outs);
        fill_with_junk(&mut self.edges);
        fill_with_junk(&mut self.faces);
        fill_with_junk(&mut self.vmarks);
        fill_with_junk(&mut self.emarks);
        fill_with_junk(&mut self.fmarks);
        fill_with_junk(&mut self.points);
    }

    // The mesh as it is handed in, in slices of these lengths.
    pub fn given(&self, counts: Counts, n: &Lengths) -> Given<'_> {
        Given {
            counts,
            slices: Slices {
                outs: &self.outs[..n.outs.min(4096)],
                edges: &self.edges[..n.edges.min(4096)],
                faces: &self.faces[..n.faces.min(4096)],
                vmarks: &self.vmarks[..n.vmarks.min(512)],
                emarks: &self.emarks[..n.emarks.min(512)],
                fmarks: &self.fmarks[..n.fmarks.min(512)],
            },
            points: &self.points[..n.points.min(2048)],
        }
    }
}
