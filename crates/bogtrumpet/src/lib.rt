// The node for C and Rust: its calls under C names over a pointer to the node, which is changed in place. A `&[u8]` is a pointer and
// a length in C, and so is a `&mut [u8]`. A service is named by its number, 0 or 1; any other number gives 11, as a service does that the
// node has not. A call that names one takes it by reference, so that neither is copied to be chosen, and hands it by value to a function of
// `steps`; a setup stores the node that is made. What such a function answers of the node is stored. A size report is looked up over lent rows.
#![tactic(auto)]

pub mod answers;
mod numbered;
pub mod plain;
mod reporting;
mod sizes;
pub mod steps;

ghost use Rattle.std.specs.Prelude.{◌≡◌, length, Err};
ghost use Rattle.std.specs.Borrow.{sem};
ghost use Rattle.refusals.specs.declared.Refusal.TheVariants.{NoLocator};
ghost use Rattle.sending.specs.declared.SendAnswer.TheVariants as sent;
ghost use Rattle.node.specs.Advertise.{advertise_of, advertise_output};
ghost use Rattle.node.specs.Ask.{ask_of, ask_output};
ghost use Rattle.node.specs.Hear.{hear_of};
ghost use Rattle.node.specs.Node.{setup_given, setup_of, setup_pair_of, raised_to, service_of};
ghost use Rattle.node.specs.Receive.{receive_of, receive_memory};
ghost use Rattle.node.specs.Report.{report_of};
ghost use Rattle.node.specs.RouterList.{list_given, replace_of};
ghost use Rattle.node.specs.Send.{send_of, send_output, sent_through, path_size_toward};
ghost use Rattle.node.specs.Size.{path_size_of};
ghost use Rattle.bogtrumpet.specs.Answers.{defaults_of, plain_received, plain_sized, plain_sent, plain_reported, plain_asked, plain_heard, plain_advertised};
ghost use Rattle.bogtrumpet.specs.Lending.{LendsService};
ghost use Rattle.bogtrumpet.specs.Numbered.{by_number, name_of, is_there};
ghost use Rattle.bogtrumpet.specs.Plain.{bytes_of, advertisement_from};
ghost use Rattle.bogtrumpet.specs.Reporting.{looked_in};
ghost use Rattle.bogtrumpet.specs.Steps.{sent_step, sent_after};

use answers::{Advertised, Asked, Heard, Received, Reported, Sent, Sized};
use node::{Node, Service};
use paths::{LentRows, rows};
use plain::Advertisement;
use refusals::Refusal;
use reporting::ReportLook;
use reports::reading;
use reports::reading::Quote;
use settings::Settings;
use steps::PlainStage;

// An IPv6 address. It is handed over in memory; in fields of four bytes it is read by four bytes, and not by one.
#[repr(C)]
#[derive(Clone, Copy)]
pub struct Address {
    pub first: [u8; 4],
    pub second: [u8; 4],
    pub third: [u8; 4],
    pub last: [u8; 4],
}

// A new router list: the first `count` addresses.
#[repr(C)]
#[derive(Clone, Copy)]
pub struct Addresses {
    pub routers: [u32; 16],
    pub count: usize,
}

// The settings with the same locators, prefixes and routers, and defaults for the rest: Settings::new.
#[tactic(auto, unfolding(crate::specs::Answers::defaults_of))]
#[unsafe(no_mangle)]
pub extern "C" fn bogtrumpet_defaults(settings: Settings) -> Settings
    ensures { result ≡ defaults_of settings }
{
    let locators = settings.locators;
    let prefixes = settings.prefixes;
    let routers = settings.routers;
    Settings::new(
        locators,
        settings.locator_count,
        prefixes,
        settings.prefix_count,
        routers,
        settings.router_count,
    )
}

// A node of one service, with these settings, whatever stood there: Node::new. The answer is the number.
#[unsafe(no_mangle)]
pub extern "C" fn bogtrumpet_new(node: &mut Node, settings: Settings) -> u8
    ensures { (result ≡ (setup_given (setup_of settings).answer).number)
        × (node.new ≡ (setup_of settings).node) }
{
    let setup = Node::new(settings);
    *node = setup.node;
    refusals::number(setup.answer)
}

// A node of two services, with the settings of each: Node::new_pair. The answer is the number.
#[unsafe(no_mangle)]
pub extern "C" fn bogtrumpet_new_pair(node: &mut Node, first: Settings, second: Settings) -> u8
    ensures { (result ≡ (setup_given (setup_pair_of first second).answer).number)
        × (node.new ≡ (setup_pair_of first second).node) }
{
    let setup = Node::new_pair(first, second);
    *node = setup.node;
    refusals::number(setup.answer)
}

// The service of a number. One above 1 reads as the second, and is then not there.
fn service_at(node: &Node, service: u8) -> &Service
    ensures { result.now ≡ service_of node.now (name_of service) }
{
    if service == 0 {
        &node.first
    } else {
        &node.second
    }
}

// The same, to be changed: no generic is both `&` and `&mut`.
fn named(node: &mut Node, service: u8) -> &mut Service
    ensures* lends { sem 𝓛 (LendsService node.entry service result) }
    ensures value { result.now ≡ service_of node.old (name_of service) }
{
    if service == 0 {
        &mut node.first
    } else {
        &mut node.second
    }
}

// The rows of the path table, lent to a search, so that none is copied.
fn path_rows(node: &Node) -> LentRows<'_>
    ensures { (result.neighbours.now ≡ node.now.paths.neighbours) × (result.sizes.now ≡ node.now.paths.sizes) × (result.times.now ≡ node.now.paths.times) × (result.count ≡ node.now.paths.count) }
{
    LentRows {
        neighbours: &node.paths.neighbours,
        sizes: &node.paths.sizes,
        times: &node.paths.times,
        count: node.paths.count,
    }
}

// Where the inner packet stands, in the datagram or in the memory: Node::receive. Of the node the latest time is written, and one place where a
// piece comes to the collection of the service. Settings and router list are read of the node after that: nothing of them is kept from before the
// memory was written.
#[unsafe(no_mangle)]
pub extern "C" fn bogtrumpet_receive(
    node: &mut Node,
    service: u8,
    datagram: &[u8],
    interface: u8,
    time: u32,
    memory: &mut [u8],
) -> Received
    ensures { (result ≡ by_number service (λ w. plain_received (receive_of node.old w datagram.now interface time memory.old).answer) (plain_received (Err NoLocator)))
        × (node.new ≡ by_number service (λ w. (receive_of node.old w datagram.now interface time memory.old).node) (raised_to node.old time))
        × (memory.new ≡ by_number service (λ w. receive_memory node.old w datagram.now interface time memory.old) memory.old) }
{
    let both = node.both;
    let latest = node.latest;
    let named = named(node, service);
    let step = steps::gathered(
        *named, both, latest, service, datagram, interface, time, memory,
    );
    if let Some((at, place)) = step.stored {
        named.pieces.places[at] = place;
    }
    let answer = match step.stage {
        PlainStage::Open(received, x) => steps::judged(*named, received, x),
        PlainStage::Passed(received) => answers::plain_received(Ok(received)),
        PlainStage::Refused(number) => answers::refused(number),
    };
    node.latest = step.latest;
    answer
}

// The size in force for a service toward a neighbour: Node::path_size. The rows of the path table are lent to the search.
#[unsafe(no_mangle)]
pub extern "C" fn bogtrumpet_path_size(node: &Node, service: u8, neighbour: u32) -> Sized
    ensures { result ≡ by_number service (λ w. plain_sized (path_size_of node.now w neighbour)) (plain_sized (Err NoLocator)) }
{
    let named = service_at(node, service);
    sizes::size_in_force(
        named.settings.link_size,
        node.both,
        path_rows(node),
        node.latest,
        service,
        neighbour,
    )
}

// The size in force toward the tunnel end of a next hop, at the later of the node's time and this one.
fn size_toward(node: &Node, service: u8, next_hop: Address, time: u32) -> u16
    ensures { result ≡ path_size_toward node.now (name_of service) (bytes_of next_hop) time }
{
    let named = service_at(node, service);
    sizes::size_toward(
        named.settings.link_size,
        path_rows(node),
        node.latest,
        next_hop,
        time,
    )
}

// Sends a packet over a path of that size. Of the node only the next identification of the service and the latest time are written.
fn send_over(
    node: &mut Node,
    path_size: u16,
    service: u8,
    packet: &[u8],
    next_hop: Address,
    locator: usize,
    time: u32,
    out: &mut [u8],
) -> Sent
    ensures { (result ≡ (sent_step (is_there node.old.both service) (service_of node.old (name_of service)) node.old.latest path_size packet.now (bytes_of next_hop) locator time (length out.old)).answer)
        × (node.new ≡ sent_after node.old service path_size packet.now (bytes_of next_hop) locator time (length out.old))
        × (out.new ≡ sent_through (is_there node.old.both service) (service_of node.old (name_of service)) path_size packet.now (bytes_of next_hop) locator out.old) }
{
    let both = node.both;
    let latest = node.latest;
    let named = named(node, service);
    let step = steps::sent(
        *named, both, latest, path_size, service, packet, next_hop, locator, time, out,
    );
    named.identification = step.identification;
    node.latest = step.latest;
    step.answer
}

// Sends a packet: Node::send. The size is looked up over the lent rows of the path table before the service is handed by value.
#[unsafe(no_mangle)]
pub extern "C" fn bogtrumpet_send(
    node: &mut Node,
    service: u8,
    packet: &[u8],
    next_hop: Address,
    locator: usize,
    time: u32,
    out: &mut [u8],
) -> Sent
    ensures { (result ≡ by_number service (λ w. plain_sent (send_of node.old w packet.now (bytes_of next_hop) locator time (length out.old)).answer) (plain_sent (sent.Refused NoLocator)))
        × (node.new ≡ by_number service (λ w. (send_of node.old w packet.now (bytes_of next_hop) locator time (length out.old)).node) (raised_to node.old time))
        × (out.new ≡ by_number service (λ w. send_output node.old w packet.now (bytes_of next_hop) locator time out.old) out.old) }
{
    let size = size_toward(node, service, next_hop, time);
    send_over(node, size, service, packet, next_hop, locator, time, out)
}

// What a size report that was read comes to: its answer, and what an accepted one changes. The rows of the path table are lent to the search.
fn report_look(node: &Node, reading: Result<Quote, Refusal>, time: u32) -> ReportLook
    ensures { result ≡ looked_in node.now reading time }
{
    reporting::looked(
        node.first.settings,
        node.second.settings,
        node.both,
        path_rows(node),
        node.latest,
        reading,
        time,
    )
}

// Takes a size report: Node::report. It is read before the node is, and looked up over lent rows. Of the node the latest time is written, and
// where the report is accepted the rows of the path table, each in place.
#[unsafe(no_mangle)]
pub extern "C" fn bogtrumpet_report(node: &mut Node, message: &[u8], time: u32) -> Reported
    ensures { (result ≡ plain_reported (report_of node.old message.now time).answer)
        × (node.new ≡ (report_of node.old message.now time).node) }
{
    let reading = reading::read(message);
    let look = report_look(node, reading, time);
    if look.accepted {
        rows::push(&mut node.paths.neighbours, look.answer.neighbour, look.row);
        rows::push(&mut node.paths.sizes, look.answer.size, look.row);
        rows::push(&mut node.paths.times, look.latest, look.row);
        node.paths.count = look.count;
    }
    node.latest = look.latest;
    look.answer
}

// Takes a new router list of a service: Node::replace_routers. The answer is the number.
#[unsafe(no_mangle)]
pub extern "C" fn bogtrumpet_replace_routers(
    node: &mut Node,
    service: u8,
    list: Addresses,
    time: u32,
) -> u8
    ensures { (result ≡ by_number service (λ w. (list_given (replace_of node.old w list.routers list.count time).answer).number) (list_given (Err NoLocator)).number)
        × (node.new ≡ by_number service (λ w. (replace_of node.old w list.routers list.count time).node) (raised_to node.old time)) }
{
    let both = node.both;
    let latest = node.latest;
    let named = named(node, service);
    let step = steps::replaced(*named, both, latest, service, list, time);
    named.routers = step.routers;
    node.latest = step.latest;
    step.answer
}

// Asks the next router of a service: Node::ask. Of the node the latest time is written, and where a router is asked the router list.
#[unsafe(no_mangle)]
pub extern "C" fn bogtrumpet_ask(
    node: &mut Node,
    service: u8,
    locator: usize,
    time: u32,
    out: &mut [u8],
) -> Asked
    ensures { (result ≡ by_number service (λ w. plain_asked (ask_of node.old w locator time (length out.old)).answer) (plain_asked (Err NoLocator)))
        × (node.new ≡ by_number service (λ w. (ask_of node.old w locator time (length out.old)).node) (raised_to node.old time))
        × (out.new ≡ by_number service (λ w. ask_output node.old w locator time out.old) out.old) }
{
    let both = node.both;
    let latest = node.latest;
    let named = named(node, service);
    let step = steps::asked(*named, both, latest, service, locator, time, out);
    if let Some(router) = step.rescheduled {
        named.routers = steps::rescheduled(*named, router);
    }
    node.latest = step.latest;
    step.answer
}

// Takes a router advertisement to a service: Node::hear. Of the node the latest time is written, and where it is accepted the router list.
#[unsafe(no_mangle)]
pub extern "C" fn bogtrumpet_hear(node: &mut Node, service: u8, packet: &[u8], time: u32) -> Heard
    ensures { (result ≡ by_number service (λ w. plain_heard (hear_of node.old w packet.now time).answer) (plain_heard (Err NoLocator)))
        × (node.new ≡ by_number service (λ w. (hear_of node.old w packet.now time).node) (raised_to node.old time)) }
{
    let both = node.both;
    let latest = node.latest;
    let named = named(node, service);
    let step = steps::heard(*named, both, latest, service, packet, time);
    if let Some(router) = step.rescheduled {
        named.routers = steps::rescheduled(*named, router);
    }
    node.latest = step.latest;
    step.answer
}

// Answers a router solicitation to a service with an advertisement: Node::advertise.
#[unsafe(no_mangle)]
pub extern "C" fn bogtrumpet_advertise(
    node: &Node,
    service: u8,
    packet: &[u8],
    locator: usize,
    advertisement: Advertisement,
    out: &mut [u8],
) -> Advertised
    ensures { (result ≡ by_number service (λ w. plain_advertised (advertise_of node.now w packet.now locator (advertisement_from advertisement) (length out.old))) (plain_advertised (Err NoLocator)))
        × (out.new ≡ by_number service (λ w. advertise_output node.now w packet.now locator (advertisement_from advertisement) out.old) out.old) }
{
    let named = service_at(node, service);
    steps::advertised(
        *named,
        node.both,
        service,
        packet,
        locator,
        advertisement,
        out,
    )
}
