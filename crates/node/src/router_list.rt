// The call with a new router list.
ghost use Rattle.std.specs.Prelude.{◌≡◌};
ghost use Rattle.node.specs.RouterList.{list_given, list_refusal, replaced_by, replace_of};

use super::{Node, Service, ServiceName};
use refusals::Refusal;
use routers::RouterList;

#[derive(Clone, Copy)]
pub struct Replaced {
    pub answer: Result<(), Refusal>,
    pub node: Node,
}

// The number of a list that is not taken: 11 where the node has no such service, else 1.
fn list_refusal(there: bool) -> Refusal
    ensures { result ≡ list_refusal there }
{
    if there {
        Refusal::Settings
    } else {
        Refusal::NoLocator
    }
}

// The answer to a new list, and the list in force afterwards.
#[derive(Clone, Copy)]
pub struct ListStep {
    pub answer: Result<(), Refusal>,
    pub routers: RouterList,
}

// What a service makes of it at the latest time; 11 where the node has none such.
pub fn replaced_by(
    there: bool,
    service: Service,
    latest: u32,
    addresses: [u32; 16],
    count: usize,
) -> ListStep
    ensures { result ≡ replaced_by there service latest addresses count }
{
    let settings = service.settings;
    let old = service.routers;
    if there & settings.routers_right(addresses, count) {
        let routers = old.replaced(addresses, count, latest);
        return ListStep {
            answer: Ok(()),
            routers,
        };
    }
    ListStep {
        answer: Err(list_refusal(there)),
        routers: old,
    }
}

impl Node {
    // The first `count` of the addresses are the router list of the service from now on.
    pub fn replace_routers(
        self,
        name: ServiceName,
        addresses: [u32; 16],
        count: usize,
        time: u32,
    ) -> Replaced
        ensures { result ≡ replace_of self name addresses count time }
    {
        let mut service = self.service(name);
        let step = replaced_by(
            self.has(name),
            service,
            self.latest.max(time),
            addresses,
            count,
        );
        let routers = step.routers;
        service.routers = routers;
        let answer = step.answer;
        let node = self.put_back(name, service, time);
        Replaced { answer, node }
    }
}
