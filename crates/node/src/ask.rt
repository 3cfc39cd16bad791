// The call of asking: a router solicitation to the next router.
ghost use Rattle.std.specs.Prelude.{◌≡◌, ◌+◌, length};
ghost use Rattle.asking.specs.Ask.{answered_with};
ghost use Rattle.node.specs.Ask.{asked_by, asked_through, ask_of, ask_output};

use super::{Node, Service, ServiceName};
use refusals::Refusal;

#[derive(Clone, Copy)]
pub struct Asked {
    pub answer: Result<u32, Refusal>,
    pub node: Node,
}

// The answer of a service at the latest time, of which the router list afterwards follows; 11 where the node has none such.
#[tactic(auto, unfolding(crate::specs::Ask::asked_by, crate::specs::Ask::asked_through))]
pub fn answered_by(
    there: bool,
    service: Service,
    latest: u32,
    locator: usize,
    out: &mut [u8],
) -> Result<u32, Refusal>
    ensures routers_value { answered_with result (latest + service.settings.interval) service.routers ≡ asked_by there service latest locator (length out.old) }
    ensures out_after { out.new ≡ asked_through there service latest locator out.old }
{
    if !there {
        return Err(Refusal::NoLocator);
    }
    let settings = service.settings;
    let routers = service.routers;
    asking::answer(settings, routers, latest, locator, out)
}

// The answer, and the router list afterwards.
pub fn asked_by(
    there: bool,
    service: Service,
    latest: u32,
    locator: usize,
    out: &mut [u8],
) -> asking::Asked
    ensures value { result ≡ asked_by there service latest locator (length out.old) }
    ensures out_after { out.new ≡ asked_through there service latest locator out.old }
{
    let answer = answered_by(there, service, latest, locator, out);
    let due = latest as u64 + service.settings.interval as u64;
    let routers = service.routers;
    asking::answered_with(answer, due, routers)
}

impl Node {
    pub fn ask(self, name: ServiceName, locator: usize, time: u32, out: &mut [u8]) -> Asked
        ensures value { result ≡ ask_of self name locator time (length out.old) }
        ensures out_after { out.new ≡ ask_output self name locator time out.old }
    {
        let mut service = self.service(name);
        let asked = asked_by(self.has(name), service, self.latest.max(time), locator, out);
        let routers = asked.routers;
        service.routers = routers;
        let answer = asked.answer;
        let node = self.put_back(name, service, time);
        Asked { answer, node }
    }
}
