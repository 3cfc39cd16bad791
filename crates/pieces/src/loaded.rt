// A piece with its payload, and the units that they fill.
ghost use Rattle.std.specs.Prelude.{◌≡◌, length};
ghost use Rattle.units.specs.Held.{range_of};
ghost use Rattle.pieces.specs.Places.{units_of, part_of, end_of, is_unfit};

use crate::places::units_of;
use crate::{Piece, ROOM};
use units::Held;

// The range is reckoned once, and tried against what a place holds.
#[derive(Clone, Copy)]
pub(crate) struct Loaded<'a> {
    pub(crate) piece: Piece,
    pub(crate) payload: &'a [u8],
    pub(crate) range: Held,
    ghost fills: { range ≡ range_of piece.offset (units_of (length payload.now)) },
}

impl<'a> Loaded<'a> {
    pub(crate) fn new(piece: Piece, payload: &'a [u8]) -> Self
        ensures { (result.piece ≡ piece) × (result.payload.now ≡ payload.now) }
    {
        let range = Held::range(piece.offset as usize, units_of(payload.len()));
        Loaded {
            piece,
            payload,
            range,
        }
    }

    // The byte of the datagram's payload behind the piece.
    pub(crate) fn end(&self) -> usize
        ensures { result ≡ end_of (part_of self.now.piece self.now.payload.now) }
    {
        8 * self.piece.offset as usize + self.payload.len()
    }

    // Number 30.
    #[tactic(auto, unfolding(crate::specs::Places::unfit))]
    pub(crate) fn is_unfit(&self) -> bool
        ensures { result ≡ is_unfit (part_of self.now.piece self.now.payload.now) }
    {
        let n = self.payload.len();
        (n == 0) | (ROOM < self.end()) | (self.piece.more & (n % 8 != 0))
    }
}
