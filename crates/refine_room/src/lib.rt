// Room for one run, on a stack of 8 MB: a cage of 7,680 vertices, 15,360 edges and 7,680 faces, a result of 28,672 vertices, 58,368 edges and
// 28,672 faces, the work of a pass over such a cage, and the file of such a result: 8,044,608 bytes in all.

#![tactic(auto)]

ghost use Rattle.std.specs.Prelude.{◌≡◌, ◌≤◌, length};
ghost use Rattle.refine_job.specs.Job.{Within};

use call_room::kind::Kind;
use call_steps::lent::Buffers;
use file_read::lent::Lent;
use refine_job::{Written, refine};
use scope::answers::Refusal;

pub fn file_bytes() -> [u8; 2901056]
    ensures { 2901056 ≡ length result }
{
    [0; 2901056]
}

// One run over the first n bytes of `file`, which then begins with the file of the result.
pub fn run(
    kind: Kind,
    passes: u32,
    flag: bool,
    file: &mut [u8],
    n: usize,
) -> Result<Written, Refusal>
    requires { n ≤ length file.old }
    ensures { Within result (length file.new) }
{
    let mut points = [0.0; 23040];
    let mut newpoints = [0.0; 86016];
    let mut work = [0.0; 184320];
    run_beside(
        kind,
        passes,
        flag,
        file,
        n,
        &mut points,
        &mut newpoints,
        &mut work,
    )
}

// The same beside the numbers. They are made before the words and marks have their place on the stack: a function that makes
// numbers may take the same room again until it returns.
fn run_beside(
    kind: Kind,
    passes: u32,
    flag: bool,
    file: &mut [u8],
    n: usize,
    points: &mut [f64],
    newpoints: &mut [f64],
    work: &mut [f64],
) -> Result<Written, Refusal>
    requires { n ≤ length file.old }
    ensures { Within result (length file.new) }
{
    let mut outs = [0; 7680];
    let mut edges = [0; 122880];
    let mut faces = [0; 7680];
    let mut vmarks = [0; 7680];
    let mut emarks = [0; 15360];
    let mut fmarks = [0; 7680];
    let mut newouts = [0; 28672];
    let mut newedges = [0; 466944];
    let mut newfaces = [0; 28672];
    let mut newvmarks = [0; 28672];
    let mut newemarks = [0; 58368];
    let mut newfmarks = [0; 28672];
    let mut cage = Lent {
        outs: &mut outs,
        edges: &mut edges,
        faces: &mut faces,
        vmarks: &mut vmarks,
        emarks: &mut emarks,
        fmarks: &mut fmarks,
        points,
    };
    let mut room = Buffers {
        outs: &mut newouts,
        edges: &mut newedges,
        faces: &mut newfaces,
        vmarks: &mut newvmarks,
        emarks: &mut newemarks,
        fmarks: &mut newfmarks,
        points: newpoints,
        work,
    };
    refine(kind, passes, flag, file, n, &mut cage, &mut room)
}
