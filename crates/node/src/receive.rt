// The two calls of receiving: the number, and the part. The second has no time, and leaves the node as it is.
ghost use Rattle.std.specs.Prelude.{◌≡◌};
ghost use Rattle.node.specs.Receive.{receive_of, receive_memory, part_in};

use super::{Node, ServiceName};
use receiving::{Received, collect, judging};
use refusals::Refusal;

#[derive(Clone, Copy)]
pub struct Receipt {
    pub answer: Result<Received, Refusal>,
    pub node: Node,
}

impl Node {
    // Where the inner packet stands, in the datagram or in the memory, or the number. The memory is lent for what the service collects: a
    // repeated piece is compared with what stands there, so who writes into it between two calls turns 27 into 29.
    pub fn receive(
        self,
        name: ServiceName,
        d: &[u8],
        interface: u8,
        time: u32,
        memory: &mut [u8],
    ) -> Receipt
        ensures value { result ≡ receive_of self name d.now interface time memory.old }
        ensures memory_after { memory.new ≡ receive_memory self name d.now interface time memory.old }
    {
        let now = self.latest.max(time);
        let mut service = self.service(name);
        if self.has(name) {
            let settings = service.settings;
            let routers = service.routers;
            let mut pieces = service.pieces;
            let gathered = collect::gather(settings, pieces, now, d, interface, memory);
            let answer = judging::judge(settings, routers, gathered.stage);
            if let Some((at, place)) = gathered.stored {
                pieces.places[at] = place;
                service.pieces = pieces;
            }
            let node = self.put_back(name, service, time);
            return Receipt { answer, node };
        }
        let node = self.put_back(name, service, time);
        Receipt {
            answer: Err(Refusal::NoLocator),
            node,
        }
    }

    // The part of the datagram that holds the inner packet, empty after a refusal and for a piece.
    pub fn received_part(self, name: ServiceName, d: &[u8], interface: u8) -> &[u8]
        ensures { result.now ≡ part_in self name d.now interface }
    {
        let service = self.service(name);
        let settings = service.settings;
        let routers = service.routers;
        if self.has(name) {
            let received = receiving::receive(settings, routers, d, interface);
            return receiving::part(d, received);
        }
        receiving::part(d, Err(Refusal::NoLocator))
    }
}
