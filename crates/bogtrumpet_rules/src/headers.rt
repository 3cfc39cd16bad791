// Headers, read and judged: the number (R4), 0 where nothing is refused, and what was read. A field that does not apply is 0.
ghost use Rattle.std.specs.Prelude.{◌≡◌};
ghost use Rattle.header.specs.Outer.{outer_of};
ghost use Rattle.bogtrumpet_rules.specs.Headers.{plain_outer, outer_in, refused_in, opened_in, unwrapped_in};

use header::outer::Outer;
use header::{fields, inner, outer};
use refusals::Refusal;

// An outer header that passes 2 to 5: its length and the datagram's, its protocol, source and destination.
#[repr(C)]
#[derive(Clone, Copy)]
pub struct OuterRead {
    pub number: u8,
    pub protocol: u8,
    pub header: u16,
    pub total: u16,
    pub source: u32,
    pub destination: u32,
}

// Where in the datagram the inner packet stands. The struct is that of the node's call, where a packet may be joined of pieces.
#[repr(C)]
#[derive(Clone, Copy)]
pub struct Received {
    pub number: u8,
    pub joined: bool,
    pub offset: usize,
    pub length: usize,
}

// The header's length in bytes by its first byte. For C it has two bytes: the remainder bounds it by 60, where `Outer.header`, a usize, tells no
// bound for a cast.
#[tactic(auto, unfolding(header::specs::Outer::outer_of))]
fn header_length(d: &[u8]) -> u16
    ensures { result ≡ (outer_of d.now).header }
{
    let first = fields::byte(d, 0);
    (first % 16) as u16 * 4
}

fn plain_outer(read: Result<outer::Outer, Refusal>, header: u16, total: u16) -> OuterRead
    ensures { result ≡ plain_outer read header total }
{
    match read {
        Ok(o) => OuterRead {
            number: 0,
            protocol: o.protocol,
            header,
            total,
            source: o.source,
            destination: o.destination,
        },
        Err(refusal) => OuterRead {
            number: refusal.number(),
            protocol: 0,
            header: 0,
            total: 0,
            source: 0,
            destination: 0,
        },
    }
}

// The outer header of a datagram, or the first of the numbers 2 to 5: header::outer::read_outer.
#[tactic(auto, unfolding(crate::specs::Headers::outer_in, header::specs::Outer::outer_of))]
#[unsafe(no_mangle)]
pub extern "C" fn bogtrumpet_read_outer(d: &[u8]) -> OuterRead
    ensures { result ≡ outer_in d.now }
{
    let read = outer::read_outer(d);
    let header = header_length(d);
    let total = fields::word(d, 2);
    plain_outer(read, header, total)
}

fn refused(refusal: Refusal) -> Received
    ensures { result ≡ refused_in refusal }
{
    Received {
        number: refusal.number(),
        joined: false,
        offset: 0,
        length: 0,
    }
}

// What comes of a datagram whose outer header is right.
#[tactic(auto, unfolding(crate::specs::Headers::opened_in))]
fn open(d: &[u8], o: Outer) -> Received
    ensures { result ≡ opened_in d.now o }
{
    let payload = outer::payload(d, o);
    let i = inner::inner_header(payload);
    if inner::inner_malformed(payload.len(), i) {
        return refused(Refusal::InnerMalformed);
    }
    Received {
        number: 0,
        joined: false,
        offset: o.header,
        length: i.length,
    }
}

// The inner packet of a datagram by the numbers 2 to 5 and 8 alone: header::outer and header::inner.
#[tactic(auto, unfolding(crate::specs::Headers::unwrapped_in))]
#[unsafe(no_mangle)]
pub extern "C" fn bogtrumpet_unwrap(d: &[u8]) -> Received
    ensures { result ≡ unwrapped_in d.now }
{
    let read = outer::read_outer(d);
    match read {
        Ok(o) => open(d, o),
        Err(refusal) => refused(refusal),
    }
}
