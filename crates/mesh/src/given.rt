// A mesh as it is handed in: its links and marks, each in a shared slice, its counts and its points.

use scope::records::Counts;

// Links and marks, each in a slice.
#[derive(Clone, Copy)]
pub struct Slices<'a> {
    pub outs: &'a [u32],
    pub edges: &'a [u32],
    pub faces: &'a [u32],
    pub vmarks: &'a [u8],
    pub emarks: &'a [u8],
    pub fmarks: &'a [u8],
}

// A mesh with its points. What is past the counts is no part of it.
#[derive(Clone, Copy)]
pub struct Given<'a> {
    pub counts: Counts,
    pub slices: Slices<'a>,
    pub points: &'a [f64],
}
