// The call with a router solicitation: it is answered with an advertisement.
ghost use Rattle.std.specs.Prelude.{◌≡◌, length};
ghost use Rattle.node.specs.Advertise.{advertised_by, advertised_through, advertise_of, advertise_output};

use super::{Node, Service, ServiceName};
use advertisements::Advertisement;
use refusals::Refusal;

// What a service makes of it; 11 where the node has none such.
pub fn advertised_by(
    there: bool,
    service: Service,
    packet: &[u8],
    locator: usize,
    advertisement: Advertisement,
    out: &mut [u8],
) -> Result<usize, Refusal>
    ensures value { result ≡ advertised_by there service packet.now locator advertisement (length out.old) }
    ensures out_after { out.new ≡ advertised_through there service packet.now locator advertisement out.old }
{
    if !there {
        return Err(Refusal::NoLocator);
    }
    let settings = service.settings;
    let found = settings.locator(locator);
    advertising::advertise(found, packet, advertisement, out)
}

impl Node {
    // The answer alone: the node stays as it is.
    pub fn advertise(
        self,
        name: ServiceName,
        packet: &[u8],
        locator: usize,
        advertisement: Advertisement,
        out: &mut [u8],
    ) -> Result<usize, Refusal>
        ensures value { result ≡ advertise_of self name packet.now locator advertisement (length out.old) }
        ensures out_after { out.new ≡ advertise_output self name packet.now locator advertisement out.old }
    {
        let service = self.service(name);
        advertised_by(self.has(name), service, packet, locator, advertisement, out)
    }
}
