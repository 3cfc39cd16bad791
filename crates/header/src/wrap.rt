// A packet wrapped in an outer header.
ghost use Rattle.std.specs.Prelude.{◌≡◌, cond, length};
ghost use Rattle.checksum.specs.Sum.{ones_sum};
ghost use Rattle.header.specs.Wrap.{outer_with, outer_bytes, written_given, wrap_answer, wrap_output};

use crate::{OUTER_HEADER, fields};
use lent::write_at;
use refusals::Refusal;

// The longest packet that can be wrapped: an IPv4 total length has 16 bits.
const LONGEST: usize = 65535 - OUTER_HEADER;

// The fields of the outer header that the caller chooses, laid out as in C.
#[repr(C)]
#[derive(Clone, Copy, Debug, PartialEq, Eq)]
pub struct OuterFields {
    pub identification: u16,
    pub dont_fragment: bool,
    pub ttl: u8,
    pub protocol: u8,
    pub source: u32,
    pub destination: u32,
}

// Writes an outer header and then the packet into out.
pub fn wrap(h: OuterFields, packet: &[u8], out: &mut [u8]) -> Result<usize, Refusal>
    ensures value { result ≡ wrap_answer (length packet.now) (length out.old) }
    ensures out_after { out.new ≡ wrap_output h packet.now out.old }
{
    let n = packet.len();
    if LONGEST < n {
        return Err(Refusal::WrappedTooLong);
    }
    let total = OUTER_HEADER + n;
    if out.len() < total {
        return Err(Refusal::OutputShort);
    }
    let header = outer_bytes(total as u16, h);
    write_at(&header, out, 0);
    write_at(packet, out, OUTER_HEADER);
    Ok(total)
}

// The 20 bytes of an outer header of the total length, with their checksum. A number of several bytes is put in its place as
// one array: so the compiler makes one store of it.
pub fn outer_bytes(total: u16, h: OuterFields) -> [u8; OUTER_HEADER]
    ensures { result ≡ outer_bytes total h }
{
    let sum = checksum::complement(header_sum(total, h));
    let mut b = [0; OUTER_HEADER];
    b[0] = 0x45;
    b[6] = flags(h.dont_fragment);
    b[8] = h.ttl;
    b[9] = h.protocol;
    write_at(&fields::word_bytes(total), &mut b, 2);
    write_at(&fields::word_bytes(h.identification), &mut b, 4);
    write_at(&fields::word_bytes(sum), &mut b, 10);
    write_at(&fields::quad_bytes(h.source), &mut b, 12);
    write_at(&fields::quad_bytes(h.destination), &mut b, 16);
    b
}

// The sum of that header with 0 for its checksum, whose words are added up as numbers.
fn header_sum(total: u16, h: OuterFields) -> u16
    ensures { result ≡ ones_sum (outer_with total h 0) }
{
    let flags = flags(h.dont_fragment);
    let numbers = 0x4500 + total as u32 + h.identification as u32;
    let bytes = flags as u32 * 256 + h.ttl as u32 * 256 + h.protocol as u32;
    let source = checksum::two_words(h.source);
    let destination = checksum::two_words(h.destination);
    checksum::sum_of_words(numbers + bytes + source + destination)
}

// The byte of the flags: don't-fragment is its second bit.
fn flags(dont_fragment: bool) -> u8
    ensures { result ≡ cond dont_fragment 64 0 }
{
    0x40 * u8::from(dont_fragment)
}
