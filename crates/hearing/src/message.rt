// Neighbour discovery messages: whether one is valid, its options aside.
ghost use Rattle.std.specs.Prelude.{◌≡◌, ◌≤◌, true, false, length, take, MatchOption};
ghost use Rattle.header.specs.Inner.{inner_of, is_inner_malformed};
ghost use Rattle.hearing.specs.Message.{is_sum_right, has_fields};

use header::inner::Inner;
use header::{ICMPV6, INNER_HEADER, fields, inner};
use messages::HOP_LIMIT;

// A whole inner packet: its header, and its bytes, none behind them.
#[derive(Clone, Copy)]
pub(crate) struct Packet<'a> {
    pub(crate) header: Inner,
    pub(crate) bytes: &'a [u8],
    ghost whole: { (40 ≤ length bytes.now) × (length bytes.now ≤ 65575) },
}

// Whether the checksum of an ICMPv6 packet is right: one pass from the source address on, started with the message's length
// and the next header. Of bytes, and so with a `requires`; the method below, which alone calls it, has that by the invariant: inside it the sum
// would be no plainer.
fn sum_right(p: &[u8]) -> bool
    requires { (40 ≤ length p.now) × (length p.now ≤ 65575) }
    ensures { result ≡ is_sum_right p.now }
{
    checksum::right_from((p.len() - INNER_HEADER + ICMPV6 as usize) as u32, &p[8..])
}

impl<'a> Packet<'a> {
    // The packet at the start of the bytes, but for number 8; bytes behind it are passed over. Inlined: else the header is copied to be handed
    // back, also of a packet that is no advertisement.
    #[inline(always)]
    pub(crate) fn of(packet: &'a [u8]) -> Option<Self>
        ensures { MatchOption result
            (is_inner_malformed (length packet.now) (inner_of packet.now) ≡ true)
            (λ p. (is_inner_malformed (length packet.now) (inner_of packet.now) ≡ false) × (p.header ≡ inner_of packet.now) × (p.bytes.now ≡ take (inner_of packet.now).length packet.now)) }
    {
        let header = inner::inner_header(packet);
        if inner::inner_malformed(packet.len(), header) {
            return None;
        }
        let end = header.length;
        Some(Packet {
            header,
            bytes: &packet[..end],
        })
    }

    // Whether its checksum is right, as one of ICMPv6.
    pub(crate) fn sum_right(self) -> bool
        ensures { result ≡ is_sum_right self.entry.bytes.now }
    {
        sum_right(self.bytes)
    }

    // Whether it has the fields of a neighbour discovery message of that type, with options from `least` on.
    pub(crate) fn fields_right(self, kind: u8, least: usize) -> bool
        ensures { result ≡ has_fields kind least self.entry.header self.entry.bytes.now }
    {
        let i = self.header;
        let message = fields::tail(self.bytes, INNER_HEADER);
        (i.next == ICMPV6)
            & (i.hop == HOP_LIMIT)
            & (fields::byte(message, 0) == kind)
            & (fields::byte(message, 1) == 0)
            & (least <= message.len())
    }
}
