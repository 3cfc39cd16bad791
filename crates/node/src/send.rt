// The call of sending.
ghost use Rattle.std.specs.Prelude.{◌≡◌, length};
ghost use Rattle.node.specs.Send.{sent_by, sent_through, send_of, send_output};

use super::{Node, Service, ServiceName};
use refusals::Refusal;
use sending::SendAnswer;

#[derive(Clone, Copy)]
pub struct Sent {
    pub answer: SendAnswer,
    pub node: Node,
}

// What a service makes of it over a path of that size; 11 where the node has none such.
pub fn sent_by(
    there: bool,
    service: Service,
    path_size: u16,
    packet: &[u8],
    next_hop: [u8; 16],
    locator: usize,
    out: &mut [u8],
) -> sending::Sent
    ensures value { result ≡ sent_by there service path_size packet.now next_hop locator (length out.old) }
    ensures out_after { out.new ≡ sent_through there service path_size packet.now next_hop locator out.old }
{
    if there {
        let settings = service.settings;
        sending::send(
            settings,
            service.identification,
            path_size,
            packet,
            next_hop,
            locator,
            out,
        )
    } else {
        sending::Sent {
            answer: SendAnswer::Refused(Refusal::NoLocator),
            identification: service.identification,
        }
    }
}

impl Node {
    pub fn send(
        self,
        name: ServiceName,
        packet: &[u8],
        next_hop: [u8; 16],
        locator: usize,
        time: u32,
        out: &mut [u8],
    ) -> Sent
        ensures value { result ≡ send_of self name packet.now next_hop locator time (length out.old) }
        ensures out_after { out.new ≡ send_output self name packet.now next_hop locator time out.old }
    {
        let now = self.latest.max(time);
        let size = self.size_at(name, address::last_quad(next_hop), now);
        let mut service = self.service(name);
        let sent = sent_by(
            self.has(name),
            service,
            size,
            packet,
            next_hop,
            locator,
            out,
        );
        service.identification = sent.identification;
        let answer = sent.answer;
        let node = self.put_back(name, service, time);
        Sent { answer, node }
    }
}
