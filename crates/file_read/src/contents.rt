// What a file says it holds, and whether that is right.

ghost use Rattle.std.specs.Prelude.{◌≡◌, ◌<◌, ◌≤◌, ◌+◌, ◌*◌, length, get_or};
ghost use Rattle.std.specs.Float.{binary64};
ghost use Rattle.std.specs.Float.Ieee.{of_bits};
ghost use Rattle.std.specs.Float.Ieee.Scale.{finite};
ghost use Rattle.scope.specs.Lists.{all};
ghost use Rattle.file_read.specs.Format.{file_counts, row_right, rows_right, marks_right, right, marks_from, bits_at, Small};

use crate::bytes::{finite_at, word};
use scope::records::Counts;

// The counts of vertices, edges and faces stand in the rows of kinds 2, 3 and 4.
#[tactic(auto, unfolding(crate::specs::Format::file_counts))]
pub fn counts(file: &[u8]) -> Counts
    requires { 64 ≤ length file.now }
    ensures value { result ≡ file_counts file.now }
    ensures small { Small result }
{
    let v = word(file, 24);
    let e = word(file, 36);
    let f = word(file, 48);
    Counts { v, e, f }
}

// The row of kind k + 1 says that kind, start and count.
#[tactic(auto, unfolding(crate::specs::Format::row_right))]
fn row_right(file: &[u8], k: usize, from: usize, n: usize) -> bool
    requires in_bounds { 64 ≤ length file.now }
    requires k_bound { k < 5 }
    ensures { result ≡ row_right file.now k from n }
{
    let kind = word(file, 4 * (3 * k + 1));
    let start = word(file, 4 * (3 * k + 2));
    let count = word(file, 4 * (3 * k + 3));
    kind == k + 1 && start == from && count == n
}

// The rows of a file with these counts, and its length. No sum here can wrap, as each count is a word.
#[tactic(auto, unfolding(crate::specs::Format::rows_right))]
fn rows_right(file: &[u8], c: Counts) -> bool
    requires in_bounds { 64 ≤ length file.now }
    requires small { Small c }
    ensures { result ≡ rows_right file.now c }
{
    let outs = 64 + 24 * c.v;
    let edges = outs + 4 * c.v;
    let faces = edges + 32 * c.e;
    let marks = faces + 4 * c.f;
    let n = c.v + c.e + c.f;
    let end = marks + n;
    row_right(file, 0, 64, c.v)
        && row_right(file, 1, outs, c.v)
        && row_right(file, 2, edges, c.e)
        && row_right(file, 3, faces, c.f)
        && row_right(file, 4, marks, n)
        && file.len() == end
}

// The n marks from there on are 0 or 1.
#[tactic(auto, unfolding(crate::specs::Format::marks_right))]
fn marks_right(file: &[u8], from: usize, n: usize) -> bool
    requires { from + n ≤ length file.now }
    ensures { result ≡ marks_right file.now from n }
{
    file[from..from + n].iter().all(|&m| m <= 1)
}

// The contents of any bytes: whether they are those of a mesh file.
#[tactic(auto, using(crate::proofs::ContentsLaws::rows_end))]
pub fn right(file: &[u8]) -> bool
    ensures { result ≡ right file.now }
{
    if file.len() < 64 || word(file, 0) != 1 {
        return false;
    }
    let c = counts(file);
    let n = c.v + c.e + c.f;
    rows_right(file, c) && marks_right(file, file.len() - n, n)
}

// The n numbers from there on are finite.
pub fn finite_numbers(file: &[u8], from: usize, n: usize) -> bool
    requires { from + 8 * n ≤ length file.now }
    ensures { result ≡ all n (λ i. finite (of_bits binary64 (bits_at file.now (from + 8 * i)))) }
{
    (0..n).all(|i| finite_at(file, from + 8 * i))
}
