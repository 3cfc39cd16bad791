// A node: one tunnel end, or two in one box, each a service of it; what it keeps, and the calls on it. A call takes the node and hands
// back the next one.
#![tactic(auto)]

pub mod advertise;
pub mod ask;
pub mod hear;
pub mod receive;
pub mod report;
pub mod router_list;
pub mod send;
pub mod size;

ghost use Rattle.std.specs.Prelude.{◌≡◌, max, length};
ghost use Rattle.paths.specs.Table.{no_reports};
ghost use Rattle.node.specs.Node.{no_settings, service_from, setup_given, setup_of, setup_pair_of, service_of, has_service, node_with, path_size_at};

use paths::PathTable;
use pieces::Collection;
use refusals::Refusal;
use routers::RouterList;
use settings::Settings;
use settings::locators::Locator;

// What one service of a node owns.
#[repr(C)]
#[derive(Clone, Copy)]
pub struct Service {
    pub settings: Settings,
    pub routers: RouterList,
    // The datagrams that are collected.
    pub pieces: Collection,
    // The identification of the next packet that is wrapped.
    pub identification: u16,
}

// What the services share stands beside them.
#[repr(C)]
#[derive(Clone, Copy)]
pub struct Node {
    pub first: Service,
    // Of empty settings where the node has one service.
    pub second: Service,
    pub paths: PathTable,
    // The latest time seen.
    pub latest: u32,
    // Any value but 0 says that the node has the second service: a byte, for a C caller may hand in any.
    pub both: u8,
}

// The service that a call names.
#[derive(Clone, Copy, Debug, PartialEq, Eq)]
pub enum ServiceName {
    First,
    Second,
}

// The answer of a call and the next node, as of Sent, Receipt, Reported, Asked, Heard and Replaced: the definitions of specs/ give each under its
// own name (`setup_of`, `send_of`, ..), which one generic struct would take away.
#[derive(Clone, Copy)]
pub struct Setup {
    pub answer: Result<(), Refusal>,
    pub node: Node,
}

// Written out, not a `Default`: zeros are no defaults of the settings, which are Settings::new.
fn no_settings() -> Settings
    ensures { result ≡ no_settings }
{
    let locators = [Locator {
        address: 0,
        interface: 0,
    }; 8];
    Settings {
        locators,
        locator_count: 0,
        prefixes: [0; 64],
        prefix_count: 0,
        routers: [0; 16],
        router_count: 0,
        link_size: 0,
        ttl: 0,
        interval: 0,
        identification: 0,
        reporting: [0; 16],
    }
}

impl Service {
    fn of(settings: Settings) -> Service
        ensures { result ≡ service_from settings }
    {
        let addresses = settings.routers;
        let routers = RouterList::new(addresses, settings.router_count);
        let pieces = Collection::new();
        Service {
            settings,
            routers,
            pieces,
            identification: settings.identification,
        }
    }
}

impl Node {
    fn of(first: Settings, second: Settings, both: u8) -> Node
        ensures { result ≡ record { first = service_from first; second = service_from second; paths = no_reports; latest = 0; both = both } }
    {
        let first = Service::of(first);
        let second = Service::of(second);
        let paths = PathTable::new();
        Node {
            first,
            second,
            paths,
            latest: 0,
            both,
        }
    }

    // A node of one service, with these settings. Refused settings make no state: a node with no locator stands in its place, which
    // has nothing of them.
    pub fn new(settings: Settings) -> Setup
        ensures { result ≡ setup_of settings }
    {
        if settings.accepted() {
            let node = Node::of(settings, no_settings(), 0);
            Setup {
                answer: Ok(()),
                node,
            }
        } else {
            let empty = no_settings();
            let node = Node::of(empty, empty, 0);
            Setup {
                answer: Err(Refusal::Settings),
                node,
            }
        }
    }

    // A node of two services, with the settings of each.
    pub fn new_pair(first: Settings, second: Settings) -> Setup
        ensures { result ≡ setup_pair_of first second }
    {
        if first.accepted_with(second) {
            let node = Node::of(first, second, 1);
            Setup {
                answer: Ok(()),
                node,
            }
        } else {
            let empty = no_settings();
            let node = Node::of(empty, empty, 0);
            Setup {
                answer: Err(Refusal::Settings),
                node,
            }
        }
    }

    // The service of that name, also where the node has none such.
    fn service(self, name: ServiceName) -> Service
        ensures { result ≡ service_of self name }
    {
        match name {
            ServiceName::First => self.first,
            ServiceName::Second => self.second,
        }
    }

    // Whether the node has the service: a call that names another gives 11. It is handed on beside the service, not as an Option of it: a refused
    // call puts the service back too, and the definitions `advertised_by`, `asked_by`, `heard_by`, `sent_by` and `replaced_by` take both.
    fn has(self, name: ServiceName) -> bool
        ensures { result ≡ has_service self name }
    {
        match name {
            ServiceName::First => true,
            ServiceName::Second => 0 < self.both,
        }
    }

    // The next node of a call with a time, once its service is done: every call that names one builds it here. That a reporting address
    // has 16 bytes, which demand 1 names, is its type: it is shown here of every service of every node.
    fn put_back(mut self, name: ServiceName, service: Service, time: u32) -> Node
        ensures value { result ≡ node_with self name service time }
        ensures reporting_len { (length self.first.settings.reporting ≡ 16) × (length self.second.settings.reporting ≡ 16) }
    {
        self.latest = self.latest.max(time);
        match name {
            ServiceName::First => {
                self.first = service;
                self
            }
            ServiceName::Second => {
                self.second = service;
                self
            }
        }
    }

    // The size in force for a service toward a neighbour at a time.
    fn size_at(self, name: ServiceName, neighbour: u32, now: u32) -> u16
        ensures { result ≡ path_size_at self name neighbour now }
    {
        let service = self.service(name);
        let settings = service.settings;
        let table = self.paths;
        paths::in_force(settings.link_size, table.kept(neighbour, now))
    }
}
