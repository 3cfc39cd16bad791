// The pieces of cut datagrams: up to eight are collected at once, in memory that the caller lends.
#![tactic(auto)]

mod holding;
mod judging;
mod loaded;
mod places;

ghost use Rattle.std.specs.Prelude.{◌≡◌};
ghost use Rattle.pieces.specs.Places.{part_of};
ghost use Rattle.pieces.specs.Take.{no_datagrams, memory_of};
ghost use Rattle.pieces.specs.Change.{change_of};

use holding::{changed, changed_place, write};
use loaded::Loaded;
use refusals::Refusal;
use units::Held;

// How many datagrams are collected at once.
pub const PLACES: usize = 8;

// How many bytes of payload a place has room for.
pub const ROOM: usize = 2048;

// How many bytes of memory the caller lends: place k has those from 2,048 k on.
pub const MEMORY: usize = 16384;

// What the pieces of one datagram have in common.
#[repr(C)]
#[derive(Clone, Copy, Default, PartialEq, Eq)]
pub struct Key {
    pub source: u32,
    pub destination: u32,
    pub identification: u16,
    pub protocol: u8,
}

// A datagram that is collected: the latest time at its first piece, its end, 0 while that is not known, how far its pieces with
// more-fragments set reach, and which of its units are held. `used` is 0 where there is none: a byte, for a C caller may hand in any. No
// Option for these two: the C header has the same layout.
#[repr(C)]
#[derive(Clone, Copy)]
pub struct Place {
    pub held: Held,
    pub key: Key,
    pub first: u32,
    pub end: u16,
    pub reach: u16,
    pub used: u8,
}

#[repr(C)]
#[derive(Clone, Copy)]
pub struct Collection {
    pub places: [Place; PLACES],
}

// A piece, its payload aside: the offset counts units of eight bytes.
#[repr(C)]
#[derive(Clone, Copy)]
pub struct Piece {
    pub key: Key,
    pub offset: u16,
    pub more: bool,
}

// What is to be done with a piece; a number is that of a place. No Result: `Drop` is a refusal too, and changes its place.
#[derive(Clone, Copy)]
pub enum Plan {
    Unfit,
    Full,
    Ignore,
    Drop(usize),
    Extend(usize),
    Begin(usize),
}

// A datagram that a piece completes, by its place and the length of its payload.
#[derive(Clone, Copy, Debug, PartialEq, Eq)]
pub struct Joined {
    pub place: usize,
    pub length: usize,
}

// The answer to a piece, and what then stands in the place `at`: where nothing changes, what stands in the first. No Option: the caller has one
// store at every piece, as `changed_by` says.
#[derive(Clone, Copy)]
pub struct Change {
    pub answer: Result<Joined, Refusal>,
    pub at: usize,
    pub place: Place,
}

impl Collection {
    // A collection with nothing in it.
    pub fn new() -> Self
        ensures { result ≡ no_datagrams }
    {
        let none = Place::none();
        Collection {
            places: [none; PLACES],
        }
    }

    // What comes of a piece at a time. Its bytes are written into the memory where it is taken. A repeat is compared with what stands there: who
    // writes into it between two calls turns its 27 into 29. One place changes at most: the caller stores that one.
    pub fn take(self, piece: Piece, payload: &[u8], time: u32, memory: &mut [u8]) -> Change
        ensures value { result ≡ change_of time piece.key (part_of piece payload.now) self memory.old }
        ensures memory_after { memory.new ≡ memory_of time piece.key (part_of piece payload.now) self memory.old }
    {
        let loaded = Loaded::new(piece, payload);
        let plan = self.plan(&loaded, time, memory);
        write(plan, &loaded, memory);
        let k = changed_place(plan);
        changed(plan, self.places[k], &loaded, time)
    }
}
