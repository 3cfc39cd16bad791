// The question for the size in force. It has no time, and leaves the node as it is.
ghost use Rattle.std.specs.Prelude.{◌≡◌};
ghost use Rattle.node.specs.Size.{size_given, path_size_of};

use super::{Node, ServiceName};
use refusals::Refusal;

impl Node {
    // The size in force for a service toward a neighbour at the latest time seen.
    pub fn path_size(self, name: ServiceName, neighbour: u32) -> Result<u16, Refusal>
        ensures { result ≡ path_size_of self name neighbour }
    {
        if self.has(name) {
            Ok(self.size_at(name, neighbour, self.latest))
        } else {
            Err(Refusal::NoLocator)
        }
    }
}
