// Answering a router solicitation: who may ask, and the advertisement that the asker gets.
#![tactic(auto)]

ghost use Rattle.std.specs.Prelude.{◌≡◌, length};
ghost use Rattle.advertising.specs.Advertise.{is_asker_right, source_for, advertised_of, advertised_output};

use advertisements::Advertisement;
use header::{fields, inner};
use hearing::solicitation;
use refusals::Refusal;

// Whether an address is link-local ISATAP, whatever IPv4 address it embeds.
fn asker_right(asker: [u8; 16]) -> bool
    ensures { result ≡ is_asker_right asker }
{
    address::link_local_prefixed(asker) & address::identifier(asker)
}

// Numbers 8, 11, 24 and 25; else the locator's address.
fn source_for(found: Option<u32>, packet: &[u8]) -> Result<u32, Refusal>
    ensures { result ≡ source_for found packet.now }
{
    if inner::inner_malformed(packet.len(), inner::inner_header(packet)) {
        return Err(Refusal::InnerMalformed);
    }
    let source = found.ok_or(Refusal::NoLocator)?;
    if !solicitation::solicitation(packet) {
        return Err(Refusal::SolicitationInvalid);
    }
    if !asker_right(fields::address(packet, 8)) {
        return Err(Refusal::AskerNotIsatap);
    }
    Ok(source)
}

// What an inner packet that asks gets, from the locator that was found: out gets the advertisement.
pub fn advertise(
    found: Option<u32>,
    packet: &[u8],
    advertisement: Advertisement,
    out: &mut [u8],
) -> Result<usize, Refusal>
    ensures value { result ≡ advertised_of found packet.now advertisement (length out.old) }
    ensures out_after { out.new ≡ advertised_output found packet.now advertisement out.old }
{
    let source = source_for(found, packet)?;
    let from = address::link_local(source);
    let to = fields::address(packet, 8);
    advertisements::write(from, to, advertisement, out)
}
