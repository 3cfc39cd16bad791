// The call with a router advertisement.
ghost use Rattle.std.specs.Prelude.{◌≡◌};
ghost use Rattle.hearing.specs.Heard.{heard_with};
ghost use Rattle.node.specs.Hear.{heard_by, hear_of};

use super::{Node, Service, ServiceName};
use refusals::Refusal;
use routers::Router;

#[derive(Clone, Copy)]
pub struct Heard {
    pub answer: Result<u32, Refusal>,
    pub node: Node,
}

// What a service judges of it at the latest time, of which the router list afterwards follows; 11 where the node has none such.
#[tactic(auto, unfolding(crate::specs::Hear::heard_by))]
pub fn judged_by(
    there: bool,
    service: Service,
    latest: u32,
    packet: &[u8],
) -> Result<Router, Refusal>
    ensures { heard_with result service.routers ≡ heard_by there service latest packet.now }
{
    if there {
        let settings = service.settings;
        let routers = service.routers;
        hearing::judge(settings, routers, latest, packet)
    } else {
        Err(Refusal::NoLocator)
    }
}

// The answer, and the router list afterwards.
pub fn heard_by(there: bool, service: Service, latest: u32, packet: &[u8]) -> hearing::Heard
    ensures { result ≡ heard_by there service latest packet.now }
{
    let judged = judged_by(there, service, latest, packet);
    let routers = service.routers;
    hearing::heard_with(judged, routers)
}

impl Node {
    pub fn hear(self, name: ServiceName, packet: &[u8], time: u32) -> Heard
        ensures { result ≡ hear_of self name packet.now time }
    {
        let mut service = self.service(name);
        let heard = heard_by(self.has(name), service, self.latest.max(time), packet);
        let routers = heard.routers;
        service.routers = routers;
        let answer = heard.answer;
        let node = self.put_back(name, service, time);
        Heard { answer, node }
    }
}
