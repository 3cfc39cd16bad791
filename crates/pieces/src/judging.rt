// What is to be done with a piece, in the order 30, 29, 28, 27.
ghost use Rattle.std.specs.Prelude.{◌≡◌, ◌<◌, length, position};
ghost use Rattle.lists.specs.Any.{first_with};
ghost use Rattle.lists.specs.Parts.{part};
ghost use Rattle.pieces.specs.Places.{places, is_of, is_free, is_equal, part_of};
ghost use Rattle.pieces.specs.Take.{plan_in, plan_new, plan_of};
ghost use Rattle.pieces.specs.Change.{Placed};

use crate::loaded::Loaded;
use crate::places::byte_at;
use crate::{Collection, Key, PLACES, Place, Plan};

// The place of the key's live datagram.
fn place_of(places: &[Place; PLACES], key: Key, time: u32) -> Option<usize>
    ensures { result ≡ position (is_of key time) places.now }
{
    places.iter().position(|d| d.of(key, time))
}

// The lowest place that is not live.
fn free_place(places: &[Place; PLACES], time: u32) -> Option<usize>
    ensures { result ≡ position (is_free time) places.now }
{
    places.iter().position(|d| d.free(time))
}

// What is to be done with the first piece of a datagram.
fn plan_new(places: &[Place; PLACES], time: u32) -> Plan
    ensures { result ≡ plan_new (first_with (is_free time) places.now) }
{
    match free_place(places, time) {
        Some(k) => Plan::Begin(k),
        None => Plan::Full,
    }
}

// Whether the memory has these bytes from there on.
fn has_at(memory: &[u8], at: usize, payload: &[u8]) -> bool
    ensures { result ≡ is_equal (part at (length payload.now) memory.now) payload.now }
{
    memory[at.min(memory.len())..].starts_with(payload)
}

// What is to be done with a piece of the datagram d in place k.
fn plan_in(d: Place, k: usize, loaded: &Loaded, memory: &[u8]) -> Plan
    requires { k < places }
    ensures { result ≡ plan_in k (part_of loaded.now.piece loaded.now.payload.now) d memory.now }
{
    let held = d.held;
    if d.ends_apart(loaded) {
        Plan::Drop(k)
    } else if !held.any(loaded.range) {
        Plan::Extend(k)
    } else if held.all(loaded.range)
        && has_at(memory, byte_at(k, loaded.piece.offset), loaded.payload)
    {
        Plan::Ignore
    } else {
        Plan::Drop(k)
    }
}

impl Collection {
    // What is to be done with a piece.
    pub(crate) fn plan(&self, loaded: &Loaded, time: u32, memory: &[u8]) -> Plan
        ensures value { result ≡ plan_of time loaded.now.piece.key (part_of loaded.now.piece loaded.now.payload.now) self.now memory.now }
        ensures placed { Placed result (part_of loaded.now.piece loaded.now.payload.now) }
    {
        if loaded.is_unfit() {
            Plan::Unfit
        } else if let Some(k) = place_of(&self.places, loaded.piece.key, time) {
            plan_in(self.places[k], k, loaded, memory)
        } else {
            plan_new(&self.places, time)
        }
    }
}
