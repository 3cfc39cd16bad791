// One place: whose datagram it has, whether that is live, and what a piece does to it.
ghost use Rattle.std.specs.Prelude.{◌≡◌, ◌<◌, ◌≤◌};
ghost use Rattle.pieces.specs.Places.{places, room, units_of, byte_at, is_live, is_free, is_of, end_of, is_apart, no_place, begun, part_of, extended, freed, is_whole};

use crate::loaded::Loaded;
use crate::{Key, Place, ROOM};
use units::Held;

// How long a datagram is kept from its first piece on, in seconds.
const LIFETIME: u64 = 30;

impl Place {
    // A place without a datagram.
    pub fn none() -> Self
        ensures { result ≡ no_place }
    {
        let held = Held::none();
        let key = Key::default();
        Place {
            held,
            key,
            first: 0,
            end: 0,
            reach: 0,
            used: 0,
        }
    }

    // A datagram of which nothing has come yet.
    pub(crate) fn new(key: Key, time: u32) -> Self
        ensures { result ≡ begun key time }
    {
        Place {
            key,
            first: time,
            used: 1,
            ..Place::none()
        }
    }

    #[tactic(auto, unfolding(crate::specs::Places::is_live))]
    pub(crate) fn live(self, time: u32) -> bool
        ensures { result ≡ is_live time self }
    {
        (self.used != 0) & ((time as u64) < (self.first as u64) + LIFETIME)
    }

    #[tactic(auto, unfolding(crate::specs::Places::is_free))]
    pub(crate) fn free(self, time: u32) -> bool
        ensures { result ≡ is_free time self }
    {
        !self.live(time)
    }

    // Whether it has the live datagram of that key.
    pub(crate) fn of(self, key: Key, time: u32) -> bool
        ensures { result ≡ is_of key time self }
    {
        self.live(time) & (key == self.key)
    }

    // Whether a piece disagrees about the end.
    #[tactic(auto, unfolding(crate::specs::Places::ends_apart))]
    pub(crate) fn ends_apart(self, loaded: &Loaded) -> bool
        ensures { result ≡ is_apart (part_of loaded.now.piece loaded.now.payload.now) self }
    {
        let end = loaded.end();
        let known = self.end != 0;
        let own = self.end as usize;
        let reach = self.reach as usize;
        if loaded.piece.more {
            known & (own <= end)
        } else {
            (known & (own != end)) | (end <= reach)
        }
    }

    // The datagram with one more piece.
    pub(crate) fn extended(self, loaded: &Loaded) -> Self
        requires { end_of (part_of loaded.now.piece loaded.now.payload.now) ≤ room }
        ensures { result ≡ extended (part_of loaded.now.piece loaded.now.payload.now) self }
    {
        let end = loaded.end() as u16;
        let held = self.held.with(loaded.range);
        if loaded.piece.more {
            Place {
                held,
                reach: self.reach.max(end),
                used: 1,
                ..self
            }
        } else {
            Place {
                held,
                end,
                used: 1,
                ..self
            }
        }
    }

    pub(crate) fn freed(self) -> Self
        ensures { result ≡ freed self }
    {
        Place { used: 0, ..self }
    }

    // Whether its end is known, and every byte before it held.
    pub(crate) fn whole(self) -> bool
        ensures { result ≡ is_whole self }
    {
        let held = self.held;
        self.end != 0 && held.all(Held::first(units_of(self.end as usize)))
    }
}

// How many units n bytes fill.
pub(crate) fn units_of(n: usize) -> usize
    ensures { result ≡ units_of n }
{
    n.div_ceil(8)
}

// Where the bytes of place k from an offset on stand in the memory.
pub(crate) fn byte_at(k: usize, offset: u16) -> usize
    requires { k < places }
    ensures { result ≡ byte_at k offset }
{
    ROOM * k + 8 * (offset as usize)
}
