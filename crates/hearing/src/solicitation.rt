// Router solicitations.
ghost use Rattle.std.specs.Prelude.{◌≡◌};
ghost use Rattle.hearing.specs.Solicitation.{are_options_allowed, is_valid_solicitation, is_solicitation};

use super::message::Packet;
use header::{INNER_HEADER, fields};
use messages::ROUTER_SOLICITATION;

// Where the options of a solicitation start (RFC 4861, 4.1).
const OPTIONS: usize = 8;

// Whether the options of a solicitation from a source are whole, and none is a source link-layer address where the source is `::`. They are
// walked once.
fn options_allowed(source: [u8; 16], p: &[u8]) -> bool
    ensures { result ≡ are_options_allowed source p.now }
{
    let message = fields::tail(p, INNER_HEADER);
    let read = options::options_read(0, fields::tail(message, OPTIONS));
    read.whole & !(address::unspecified(source) & read.source_link_layer)
}

// Whether a packet is a valid router solicitation. The checksum and the options, which take a pass over all bytes each, are asked last.
fn valid_solicitation(p: Packet) -> bool
    ensures { result ≡ is_valid_solicitation p.entry.header p.entry.bytes.now }
{
    p.fields_right(ROUTER_SOLICITATION, OPTIONS)
        && p.sum_right()
        && options_allowed(p.header.source, p.bytes)
}

// Whether the inner packet at the start of the bytes is a valid router solicitation; bytes behind it are passed over.
pub fn solicitation(packet: &[u8]) -> bool
    ensures { result ≡ is_solicitation packet.now }
{
    match Packet::of(packet) {
        Some(p) => valid_solicitation(p),
        None => false,
    }
}
