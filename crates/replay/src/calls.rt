// The calls. Each function takes the bytes from the call's kind on; a byte past the end reads as 0.
ghost use Rattle.std.specs.Prelude.{◌≤◌};

use crate::answering::Answering;
use crate::answers;
use header::fields;
use input::section;
use node::{Node, ServiceName};
use streams::waiting::Lines;

// The bytes of the longest call that is read whole, a sending. Of a longer list of routers no more than the first sixteen are read, and of
// the call that answers a solicitation the packet alone.
pub(crate) const LONGEST: usize = 27 + 65535;

// The bytes of a call up to what it has of any length, at most.
pub(crate) const HEAD: usize = 27;

// What each byte of an output holds before a call, and of the memory before the first one.
pub(crate) const BLANK: u8 = 165;

// The bytes of each service's memory.
const MEMORY: usize = 65535;

// The memories for what the two services collect, one behind the other.
pub(crate) const MEMORIES: usize = MEMORY + MEMORY;

// Where the memory of a service stands.
fn memory_at(service: ServiceName) -> usize
    ensures { result ≤ 65535 }
{
    match service {
        ServiceName::First => 0,
        ServiceName::Second => MEMORY,
    }
}

// Bytes behind their two-byte length, which stands at an index.
fn counted(c: &[u8], at: usize) -> &[u8] {
    section::front(
        fields::tail(c, at.saturating_add(2)),
        fields::word(c, at) as usize,
    )
}

// An output of as many bytes as fit, blank.
fn blank(space: &mut [u8], room: usize) -> &mut [u8] {
    let end = room.min(space.len());
    let out = &mut space[..end];
    out.fill(BLANK);
    out
}

// Of the service's memory as many bytes are lent as the call says.
pub(crate) fn receive(
    node: &mut Node,
    service: ServiceName,
    c: &[u8],
    memories: &mut [u8],
    lines: &mut Lines,
) {
    let from = memory_at(service).min(memories.len());
    let end = (from + fields::word(c, 7) as usize).min(memories.len());
    let memory = &mut memories[from..end];
    let interface = fields::byte(c, 2);
    let received = node.receive(
        service,
        counted(c, 9),
        interface,
        fields::quad(c, 3),
        memory,
    );
    answers::receive(received.answer, memory, lines);
    *node = received.node;
}

// No call of the node: all of the service's memory as it stands.
pub(crate) fn whole_memory(service: ServiceName, memories: &[u8], lines: &mut Lines) {
    let memory = section::front(fields::tail(memories, memory_at(service)), MEMORY);
    answers::memory(memory, lines);
}

pub(crate) fn part(node: Node, service: ServiceName, c: &[u8], lines: &mut Lines) {
    let part = node.received_part(service, counted(c, 3), fields::byte(c, 2));
    answers::part(part, lines);
}

pub(crate) fn send(
    node: &mut Node,
    service: ServiceName,
    c: &[u8],
    space: &mut [u8],
    lines: &mut Lines,
) {
    let out = blank(space, fields::word(c, 23) as usize);
    let locator = fields::byte(c, 2) as usize;
    let next_hop = fields::address(c, 7);
    let sent = node.send(
        service,
        counted(c, 25),
        next_hop,
        locator,
        fields::quad(c, 3),
        out,
    );
    answers::send(sent.answer, out, lines);
    *node = sent.node;
}

// It names no service.
pub(crate) fn report(node: &mut Node, c: &[u8], lines: &mut Lines) {
    let reported = node.report(counted(c, 5), fields::quad(c, 1));
    answers::report(reported.answer, lines);
    *node = reported.node;
}

pub(crate) fn routers(node: &mut Node, service: ServiceName, c: &[u8], lines: &mut Lines) {
    let list = fields::tail(c, 6);
    let count = section::count(list);
    let routers = section::routers(list);
    let replaced = node.replace_routers(service, routers, count, fields::quad(c, 2));
    answers::routers(replaced.answer, count, lines);
    *node = replaced.node;
}

pub(crate) fn ask(
    node: &mut Node,
    service: ServiceName,
    c: &[u8],
    space: &mut [u8],
    lines: &mut Lines,
) {
    let out = blank(space, fields::word(c, 7) as usize);
    let locator = fields::byte(c, 2) as usize;
    let asked = node.ask(service, locator, fields::quad(c, 3), out);
    answers::ask(asked.answer, out, lines);
    *node = asked.node;
}

pub(crate) fn advertisement(node: &mut Node, service: ServiceName, c: &[u8], lines: &mut Lines) {
    let heard = node.hear(service, counted(c, 6), fields::quad(c, 2));
    answers::advertisement(heard.answer, lines);
    *node = heard.node;
}

// Answers the solicitation behind its length.
pub(crate) fn advertise(
    node: Node,
    service: ServiceName,
    call: Answering,
    c: &[u8],
    space: &mut [u8],
    lines: &mut Lines,
) {
    let out = blank(space, call.room);
    let answer = node.advertise(
        service,
        counted(c, 0),
        call.locator,
        call.advertisement,
        out,
    );
    answers::advertise(answer, out, lines);
}

// The size in force for a service toward a neighbour.
pub(crate) fn size(node: Node, service: ServiceName, c: &[u8], lines: &mut Lines) {
    answers::size(node.path_size(service, fields::quad(c, 2)), lines);
}
