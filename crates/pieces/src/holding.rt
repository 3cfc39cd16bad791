// What was planned, carried out: one place, and its bytes, with one more piece, or free.
ghost use Rattle.std.specs.Prelude.{◌≡◌, length, Err};
ghost use Rattle.pieces.specs.Places.{part_of};
ghost use Rattle.pieces.specs.Take.{memory_by};
ghost use Rattle.pieces.specs.Change.{Placed, changed_place, is_taken, settled_in, changed_by};

use crate::loaded::Loaded;
use crate::places::byte_at;
use crate::{Change, Joined, Place, Plan};
use refusals::Refusal;

// The place that a plan changes; where it changes none, the first, and no Option: that is stored as it stands (`changed_place`, `changed_by`).
pub(crate) fn changed_place(plan: Plan) -> usize
    ensures { result ≡ changed_place plan }
{
    match plan {
        Plan::Unfit | Plan::Full | Plan::Ignore => 0,
        Plan::Drop(k) | Plan::Extend(k) | Plan::Begin(k) => k,
    }
}

// Whether a plan takes the piece.
fn takes(plan: Plan) -> bool
    ensures { result ≡ is_taken plan }
{
    matches!(plan, Plan::Extend(_) | Plan::Begin(_))
}

// Writes the payload where a plan takes the piece.
pub(crate) fn write(plan: Plan, loaded: &Loaded, memory: &mut [u8])
    requires { Placed plan (part_of loaded.now.piece loaded.now.payload.now) }
    ensures { memory.new ≡ memory_by plan (part_of loaded.now.piece loaded.now.payload.now) memory.old }
{
    if takes(plan) {
        let at = byte_at(changed_place(plan), loaded.piece.offset);
        lent::write_at(loaded.payload, memory, at);
    }
}

// A number, and place k with what stands there.
fn refused(refusal: Refusal, k: usize, d: Place) -> Change
    ensures { result ≡ record { answer = Err refusal; at = k; place = d } }
{
    Change {
        answer: Err(refusal),
        at: k,
        place: d,
    }
}

// Of the datagram d in place k: a complete one is named, and its place is free from the next call on.
fn settled(k: usize, d: Place) -> Change
    ensures { result ≡ settled_in k d }
{
    if d.whole() {
        let free = d.freed();
        Change {
            answer: Ok(Joined {
                place: k,
                length: d.end as usize,
            }),
            at: k,
            place: free,
        }
    } else {
        refused(Refusal::PieceWaits, k, d)
    }
}

// What a plan makes of the place that it changes, where d stands.
pub(crate) fn changed(plan: Plan, d: Place, loaded: &Loaded, time: u32) -> Change
    requires { Placed plan (part_of loaded.now.piece loaded.now.payload.now) }
    ensures { result ≡ changed_by plan time loaded.now.piece.key (part_of loaded.now.piece loaded.now.payload.now) d }
{
    match plan {
        Plan::Unfit => refused(Refusal::PieceUnfit, 0, d),
        Plan::Full => refused(Refusal::NoPlace, 0, d),
        Plan::Ignore => refused(Refusal::PieceWaits, 0, d),
        Plan::Drop(k) => refused(Refusal::PiecesDisagree, k, d.freed()),
        Plan::Extend(k) => settled(k, d.extended(loaded)),
        Plan::Begin(k) => settled(k, Place::new(loaded.piece.key, time).extended(loaded)),
    }
}
