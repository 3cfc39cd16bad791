// What is written into lent bytes: the answer is the number (R4), and with 0 the length written. A refusal writes nothing.
ghost use Rattle.std.specs.Prelude.{◌≡◌, length};
ghost use Rattle.address.specs.Address.{link_local_of};
ghost use Rattle.header.specs.Wrap.{wrap_answer, wrap_output};
ghost use Rattle.messages.specs.Icmp.{too_big_answer, too_big_output, solicitation_answer, solicitation_output};
ghost use Rattle.bogtrumpet_rules.specs.Answers.{plain_written, fields_in};

use crate::addresses::Address;
use header::wrap;
use header::wrap::OuterFields;
use refusals::Refusal;

#[repr(C)]
#[derive(Clone, Copy)]
pub struct Written {
    pub number: u8,
    pub length: usize,
}

// The fields of an outer header. Any don't-fragment byte but 0 sets the flag, so that no value breaks the header.
#[repr(C)]
#[derive(Clone, Copy)]
pub struct Outer {
    pub identification: u16,
    pub dont_fragment: u8,
    pub ttl: u8,
    pub protocol: u8,
    pub source: u32,
    pub destination: u32,
}

fn plain_written(written: Result<usize, Refusal>) -> Written
    ensures { result ≡ plain_written written }
{
    match written {
        Ok(length) => Written { number: 0, length },
        Err(refusal) => Written {
            number: refusal.number(),
            length: 0,
        },
    }
}

fn fields_of(outer: Outer) -> OuterFields
    ensures { result ≡ fields_in outer }
{
    let set = 0 < outer.dont_fragment;
    OuterFields {
        identification: outer.identification,
        dont_fragment: set,
        ttl: outer.ttl,
        protocol: outer.protocol,
        source: outer.source,
        destination: outer.destination,
    }
}

// Writes an outer header and then the packet into out, refused by 23 and 15: header::wrap::wrap.
#[unsafe(no_mangle)]
pub extern "C" fn bogtrumpet_wrap(outer: Outer, packet: &[u8], out: &mut [u8]) -> Written
    ensures value { result ≡ plain_written (wrap_answer (length packet.now) (length out.old)) }
    ensures out_after { out.new ≡ wrap_output (fields_in outer) packet.now out.old }
{
    let fields = fields_of(outer);
    plain_written(wrap::wrap(fields, packet, out))
}

// Writes the Packet Too Big that names the size, from the reporting address to the packet's source, refused by 8 (under 40 bytes)
// and 15: messages::too_big.
#[unsafe(no_mangle)]
pub extern "C" fn bogtrumpet_too_big(
    reporting: Address,
    size: u16,
    packet: &[u8],
    out: &mut [u8],
) -> Written
    ensures value { result ≡ plain_written (too_big_answer (length packet.now) (length out.old)) }
    ensures out_after { out.new ≡ too_big_output reporting.bytes size packet.now out.old }
{
    let bytes = reporting.bytes;
    plain_written(messages::too_big(bytes, size, packet, out))
}

// Writes a router solicitation between two link-local addresses, refused by 15: messages::solicitation.
#[unsafe(no_mangle)]
pub extern "C" fn bogtrumpet_solicitation(locator: u32, router: u32, out: &mut [u8]) -> Written
    ensures value { result ≡ plain_written (solicitation_answer (length out.old)) }
    ensures out_after { out.new ≡ solicitation_output (link_local_of locator) (link_local_of router) out.old }
{
    let from = address::link_local(locator);
    let to = address::link_local(router);
    plain_written(messages::solicitation(from, to, out))
}
