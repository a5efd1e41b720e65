// The amounts after passes, found without any pass. They never shrink, so the search stops as soon as a count is over 1,048,576.

ghost use Rattle.std.specs.Prelude.{◌≡◌};
ghost use Rattle.scope.specs.Tally.{catmull_tally};
ghost use Rattle.laws_call.specs.Laws.{Faced};
ghost use Rattle.laws_check.specs.Tells.{Tells};
ghost use Rattle.laws_mesh.specs.Sides.{Within};
ghost use Rattle.call_room.specs.Kinds.{scheme_of};
ghost use Rattle.call_room.specs.Amounts.{tallied};
ghost use Rattle.call_room.specs.Ahead.{Whole, Told};

use crate::kind::{Kind, turn};
use crate::tally::Amounts;

// No count is over the limit.
pub fn within(t: Amounts) -> bool
    ensures { Tells result (Within (tallied t)) }
{
    t.v <= 1048576 && t.e <= 1048576 && t.f <= 1048576
}

// The amounts that the first pass starts from.
pub fn ready(kind: Kind, t: Amounts) -> Amounts
    ensures { tallied result ≡ (scheme_of kind).ready (tallied t) }
{
    match kind {
        Kind::Catmull => t,
    }
}

// Document 01's table: Catmull-Clark.
fn catmull(t: Amounts) -> Amounts
    requires within { Within (tallied t) }
    requires whole { Whole (tallied t) }
    ensures { tallied result ≡ catmull_tally (tallied t) }
{
    Amounts {
        v: t.v + t.e + t.f,
        e: 2 * t.e + t.s,
        f: t.s,
        s: 4 * t.s,
        b: 2 * t.b,
    }
}

// Document 01's table: one pass.
pub fn grow(kind: Kind, flag: bool, t: Amounts) -> Amounts
    requires within { Within (tallied t) }
    requires whole { Whole (tallied t) }
    ensures { tallied result ≡ (scheme_of kind).grow flag (tallied t) }
{
    match kind {
        Kind::Catmull => catmull(t),
    }
}

// The amounts k passes ahead, the first with this flag, and the flag there; none if a count is over the limit by then.
pub fn forecast(kind: Kind, k: u32, flag: bool, t: Amounts) -> Option<(Amounts, bool)>
    requires whole { Whole (tallied t) }
    requires faced { Faced (tallied t) }
    ensures { Told (scheme_of kind) k flag (tallied t) result }
{
    let mut now = t;
    let mut next = flag;
    for _ in 0..k {
        if !within(now) {
            return None;
        }
        now = grow(kind, next, now);
        next = turn(kind, next);
    }
    if !within(now) {
        return None;
    }
    Some((now, next))
}
