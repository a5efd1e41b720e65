// The counter's line about a file, in slices of its own: for any file of at most 65,536 bytes they have room.

ghost use Rattle.std.specs.Prelude.{◌≡◌, ◌≤◌, length, take};
ghost use Rattle.scope.specs.Lists.{over};
ghost use Rattle.count_line.specs.Says.{counter_line};

use crate::tell::tell;
use file_read::lent::Lent;

// Room for one byte more than the counter takes: a program that fills it has met a file that is too long. An array, as no call uses a heap.
pub fn new_file() -> [u8; 65537]
    ensures { 65537 ≡ length result }
{
    [0; 65537]
}

// The line is at the start of `line`; the answer is how long it is.
pub fn say(file: &[u8], line: &mut [u8; 167]) -> usize
    ensures line_after { line.new ≡ over (counter_line file.now) line.old }
    ensures value { result ≡ length (counter_line file.now) }
    ensures upper_bound { result ≤ length line.new }
    ensures value_2 { result ≡ length (take result line.new) }
{
    let mut outs = [0; 2304];
    let mut edges = [0; 16384];
    let mut faces = [0; 13312];
    let mut vmarks = [0; 13312];
    let mut emarks = [0; 13312];
    let mut fmarks = [0; 13312];
    let mut points = [0.0; 6912];
    let mut cage = Lent {
        outs: &mut outs,
        edges: &mut edges,
        faces: &mut faces,
        vmarks: &mut vmarks,
        emarks: &mut emarks,
        fmarks: &mut fmarks,
        points: &mut points,
    };
    tell(file, &mut cage, line)
}
