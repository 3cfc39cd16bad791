// The inner IPv6 header, read and judged.
ghost use Rattle.std.specs.Prelude.{◌≡◌, ◌≤◌, length};
ghost use Rattle.header.specs.Numbers.{inner_header};
ghost use Rattle.header.specs.Inner.{inner_of, is_inner_malformed, is_packet_malformed, inner_packet_of, may_draw_error};

use crate::{INNER_HEADER, chain, fields};

// The fields of an IPv6 header.
#[derive(Clone, Copy, Debug, PartialEq, Eq)]
pub struct Inner {
    pub version: u8,
    // The packet's length in bytes by its header: 40 and the payload length.
    pub length: usize,
    pub next: u8,
    pub hop: u8,
    pub source: [u8; 16],
}

// What is not there reads as 0. The compiler sees that a header under 40 bytes is refused whatever its fields are. Its twin is
// `outer::outer_header`: a trait for the two would be longer than their four lines.
pub fn inner_header(p: &[u8]) -> Inner
    ensures { result ≡ inner_of p.now }
{
    if p.len() < INNER_HEADER {
        full_header(&fields::padded::<INNER_HEADER>(p))
    } else {
        full_header(p)
    }
}

// One test of the length stands for all of its reads.
fn full_header(p: &[u8]) -> Inner
    requires { inner_header ≤ length p.now }
    ensures { result ≡ inner_of p.now }
{
    let payload = fields::pair(p[4], p[5]);
    let source = fields::address(p, 8);
    Inner {
        version: p[0] / 16,
        length: INNER_HEADER + payload as usize,
        next: p[6],
        hop: p[7],
        source,
    }
}

// Number 8 as in receiving, where n bytes remain for the packet: bytes behind it are passed over. This is R5.10 and the next is R7.2: two rules,
// and both are public.
pub fn inner_malformed(n: usize, i: Inner) -> bool
    ensures { result ≡ is_inner_malformed n i }
{
    (n < INNER_HEADER) | (i.version != 6) | (n < i.length)
}

// Number 8 as in sending, of n bytes: none may stand behind the packet.
pub fn packet_malformed(n: usize, i: Inner) -> bool
    ensures { result ≡ is_packet_malformed n i }
{
    (n < INNER_HEADER) | (i.version != 6) | (n != i.length)
}

// The inner packet at the start of p, empty where it is malformed: a part of the caller's slice (R21.1), and `inner_packet_of` says empty.
pub fn inner_packet(p: &[u8]) -> &[u8]
    ensures { result.now ≡ inner_packet_of p.now }
{
    let i = inner_header(p);
    if inner_malformed(p.len(), i) {
        return &p[..0];
    }
    &p[..i.length]
}

// Whether a packet may draw an ICMPv6 error message.
pub fn may_draw_error(p: &[u8]) -> bool
    ensures { result ≡ may_draw_error p.now }
{
    if address::multicast_or_unspecified(fields::address(p, 8)) {
        return false;
    }
    chain::chain_may_draw(fields::byte(p, 6), fields::tail(p, INNER_HEADER))
}
