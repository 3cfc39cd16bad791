// The ICMPv6 messages that we write: Packet Too Big and the router solicitation; and the headers of any.
#![tactic(auto)]

ghost use Rattle.std.specs.Prelude.{◌≡◌, ◌&&◌, [], ◌∷◌, ◌++◌, ◌≤◌, length, take, leb};
ghost use Rattle.checksum.specs.Folding.{word_sum};
ghost use Rattle.header.specs.Numbers.{inner_header};
ghost use Rattle.lent.specs.Written.{written};
ghost use Rattle.messages.specs.Icmp.{solicitation_type, message_headers, longest_packet, icmp_sum, icmp_with, ipv6_header, enclosed, too_big_answer, too_big_output, solicitation_answer, solicitation_output};
ghost use Rattle.messages.specs.Sealed.{sealed};

use address::quads::Quads;
use header::{ICMPV6, INNER_HEADER, fields};
use lent::write_at;
use refusals::Refusal;

// The type of the Packet Too Big (RFC 4443, 3.2). Types are bytes of a message, and stay so: `enclose` takes any.
const PACKET_TOO_BIG: u8 = 2;

// The types of the router solicitation and the router advertisement (RFC 4861, 4.1 and 4.2).
pub const ROUTER_SOLICITATION: u8 = 133;

pub const ROUTER_ADVERTISEMENT: u8 = 134;

// The hop limit of a neighbour discovery message, which no router has passed on (RFC 4861, 6.1).
pub const HOP_LIMIT: u8 = 255;

// The headers of a message: IPv6's, and the first 8 bytes of ICMPv6.
pub const HEADERS: usize = INNER_HEADER + 8;

// The longest IPv6 packet: a payload length has 16 bits.
const LONGEST: usize = INNER_HEADER + 65535;

// The most that a Packet Too Big quotes: the message is then 1,280 bytes long.
pub const QUOTE: usize = 1232;

// The length of a router solicitation: nothing stands behind its headers.
pub const SOLICITATION: usize = HEADERS;

// The length of its ICMPv6 message.
const LENGTH: u16 = (SOLICITATION - INNER_HEADER) as u16;

// A message but for its length and what stands behind its headers: the hop limit and the addresses of IPv6, and of ICMPv6 the type and the
// four bytes behind the checksum. Its code is 0.
#[derive(Clone, Copy, Debug, PartialEq, Eq)]
pub struct Message {
    pub hop: u8,
    pub from: [u8; 16],
    pub to: [u8; 16],
    pub kind: u8,
    pub four: [u8; 4],
}

// Writes the Packet Too Big that names the size, from the reporting address to the packet's source.
pub fn too_big(
    reporting: [u8; 16],
    size: u16,
    packet: &[u8],
    out: &mut [u8],
) -> Result<usize, Refusal>
    ensures value { result ≡ too_big_answer (length packet.now) (length out.old) }
    ensures out_after { out.new ≡ too_big_output reporting size packet.now out.old }
{
    if packet.len() < INNER_HEADER {
        return Err(Refusal::InnerMalformed);
    }
    let quoted = QUOTE.min(packet.len());
    if out.len() < HEADERS + quoted {
        return Err(Refusal::OutputShort);
    }
    write_at(&packet[..quoted], out, HEADERS);
    let [high, low] = fields::word_bytes(size);
    let message = Message {
        hop: 64,
        from: reporting,
        to: fields::address(packet, 8),
        kind: PACKET_TOO_BIG,
        four: [0, 0, high, low],
    };
    enclose(message, HEADERS + quoted, out);
    Ok(HEADERS + quoted)
}

// Writes a router solicitation.
pub fn solicitation(from: [u8; 16], to: [u8; 16], out: &mut [u8]) -> Result<usize, Refusal>
    ensures value { result ≡ solicitation_answer (length out.old) }
    ensures out_after { out.new ≡ solicitation_output from to out.old }
{
    if out.len() < SOLICITATION {
        return Err(Refusal::OutputShort);
    }
    let sum = checksum::complement(solicitation_sum(from, to));
    let [high, low] = fields::word_bytes(sum);
    write_ipv6_header(LENGTH, HOP_LIMIT, from, to, out);
    let front = [ROUTER_SOLICITATION, 0, high, low, 0, 0, 0, 0];
    write_at(&front, out, INNER_HEADER);
    Ok(SOLICITATION)
}

// The exact sum of the words of an address.
fn address_words(a: [u8; 16]) -> u32
    ensures { (result ≡ word_sum a) × (result ≤ 524280) }
{
    let q = Quads::from(a);
    let first = checksum::two_words(q.first);
    let second = checksum::two_words(q.second);
    let third = checksum::two_words(q.third);
    first + second + third + checksum::two_words(q.last)
}

// The sum of a solicitation with 0 for its checksum. Its words are added up as numbers, not from the bytes just written: those of the
// addresses, and beside them its length, the next header and the type.
fn solicitation_sum(from: [u8; 16], to: [u8; 16]) -> u16
    ensures { result ≡ icmp_sum (from ++ to) (icmp_with solicitation_type 0 0 (0 ∷ 0 ∷ 0 ∷ 0 ∷ [])) }
{
    let fixed = LENGTH as u32 + ICMPV6 as u32 + ROUTER_SOLICITATION as u32 * 256;
    checksum::sum_of_words(fixed + address_words(from) + address_words(to))
}

// Puts the headers of an ICMPv6 packet of n bytes before what already stands in out from byte 48 on, and the checksum into them.
pub fn enclose(m: Message, n: usize, out: &mut [u8])
    ensures { out.new ≡ enclosed m.hop m.from m.to m.kind m.four n out.old }
{
    if !packet_fits(n, out.len()) {
        return;
    }
    write_ipv6_header((n - INNER_HEADER) as u16, m.hop, m.from, m.to, out);
    let [a, b, c, d] = m.four;
    let front = [m.kind, 0, 0, 0, a, b, c, d];
    write_at(&front, out, INNER_HEADER);
    seal(n, out);
}

// Whether an ICMPv6 packet of n bytes can be, and fits into that room.
fn packet_fits(n: usize, room: usize) -> bool
    ensures { result ≡ (leb message_headers n && leb n longest_packet && leb n room) }
{
    (HEADERS <= n) & (n <= LONGEST) & (n <= room)
}

// Writes the IPv6 header of n bytes of ICMPv6.
fn write_ipv6_header(n: u16, hop: u8, from: [u8; 16], to: [u8; 16], out: &mut [u8])
    requires { inner_header ≤ length out.old }
    ensures { out.new ≡ written (ipv6_header n hop from to) out.old }
{
    let [high, low] = fields::word_bytes(n);
    let front = [0x60, 0, 0, 0, high, low, ICMPV6, hop];
    write_at(&front, out, 0);
    write_at(&from, out, 8);
    write_at(&to, out, 24);
}

// Puts the checksum into the ICMPv6 packet of n bytes at the front of out, where it is 0: one pass from the source address
// on, started with the message's length and the next header.
fn seal(n: usize, out: &mut [u8])
    requires { (44 ≤ n) × (n ≤ length out.old) × (n ≤ 65575) }
    ensures { out.new ≡ written (sealed (take n out.old)) out.old }
{
    let sum = checksum::sum_from((n - INNER_HEADER + ICMPV6 as usize) as u32, &out[8..n]);
    let field = checksum::complement(sum);
    write_at(&fields::word_bytes(field), out, 42);
}
