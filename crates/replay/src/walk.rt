// The calls of the input, gone through once to see that they are whole, and once to make them.
ghost use Rattle.std.specs.Prelude.{◌<◌, IfOk};

use crate::kind::Kind;
use crate::stop::Stop;
use crate::window::Window;
use crate::{answering, calls, kind};
use header::fields;
use node::{Node, ServiceName};
use streams::waiting::Lines;

// What a call says of itself, and the index behind it.
#[derive(Clone, Copy)]
struct Call {
    kind: Kind,
    // The first where it names none. No Option: all kinds but one name a service, and each of their calls would have to open it.
    service: ServiceName,
    next: usize,
}

// The call at an index, which is there as a whole.
fn call_at(at: usize, window: &mut Window) -> Result<Call, Stop>
    ensures { IfOk result (λ call. at < call.next) }
{
    window.reach(at, calls::HEAD)?;
    let c = window.bytes(at);
    let kind = Kind::try_from(fields::byte(c, 0))?;
    let service = match kind {
        Kind::Report => ServiceName::First,
        _ => kind::service(fields::byte(c, 1))?,
    };
    let size = size_at(kind, at, window)?;
    if window.end().saturating_sub(at) < size {
        return Err(Stop::BadInput);
    }
    let next = at + size;
    Ok(Call {
        kind,
        service,
        next,
    })
}

// The same, held, or as much of it as is read at once.
fn held_call(at: usize, window: &mut Window) -> Result<Call, Stop>
    ensures { IfOk result (λ call. at < call.next) }
{
    let call = call_at(at, window)?;
    window.reach(at, (call.next - at).min(calls::LONGEST))?;
    Ok(call)
}

// The bytes of a call of this kind at an index, whose first bytes are held.
fn size_at(kind: Kind, at: usize, window: &mut Window) -> Result<usize, Stop>
    ensures { IfOk result (λ size. 0 < size) }
{
    let c = window.bytes(at);
    match kind {
        Kind::Receive => Ok(11 + fields::word(c, 9) as usize),
        Kind::Send => Ok(27 + fields::word(c, 25) as usize),
        Kind::Report => Ok(7 + fields::word(c, 5) as usize),
        Kind::Routers => Ok(8 + 4 * fields::word(c, 6) as usize),
        Kind::Ask => Ok(9),
        Kind::Advertisement => Ok(8 + fields::word(c, 6) as usize),
        Kind::Size => Ok(6),
        Kind::Advertise => answering::size_at(at, window),
        Kind::WholeMemory => Ok(2),
        Kind::Part => Ok(5 + fields::word(c, 3) as usize),
    }
}

// Goes through the calls from an index on: each is whole, and nothing stands behind the last.
pub(crate) fn check(first: usize, window: &mut Window) -> Result<(), Stop> {
    let end = window.end();
    let mut at = first;
    while at < end {
        at = call_at(at, window)?.next;
    }
    if at == end {
        Ok(())
    } else {
        Err(Stop::BadInput)
    }
}

// The call at an index, which is held, or as much of it as is read at once, with room for its line: the lines that wait are written for it also
// where a read failed. Where both failed, the write is told here, and then the read.
fn call_on(
    rt: &HostRuntime,
    at: usize,
    window: &mut Window,
    lines: &mut Lines,
) -> Result<Call, Stop>
    ensures { IfOk result (λ call. at < call.next) }
{
    let call = held_call(at, window);
    let room = lines.make_room(rt).map_err(|_| Stop::Output);
    if let (Err(_), Err(stop)) = (call, room) {
        let _ = eprintln!(rt; "replay: {stop}");
        return call;
    }
    room?;
    call
}

// Makes the calls, which are whole, up to where a read or a write fails. That is told before the lines that wait are written, and told here, since
// writing them may fail too; where it was a write that failed, none waits.
pub(crate) fn make(
    rt: &HostRuntime,
    node: Node,
    first: usize,
    window: &mut Window,
) -> Result<(), Stop> {
    let mut out = [0u8; 65536];
    let mut memories = [calls::BLANK; calls::MEMORIES];
    let mut lines = Lines::new();
    let made = made(rt, node, first, window, &mut out, &mut memories, &mut lines);
    if let Err(stop) = made {
        let _ = eprintln!(rt; "replay: {stop}");
    }
    lines.write(rt).map_err(|_| Stop::Output)
}

// The node is lent to each call that changes it, which puts the next one in its place.
fn made(
    rt: &HostRuntime,
    mut node: Node,
    first: usize,
    window: &mut Window,
    out: &mut [u8],
    memories: &mut [u8],
    lines: &mut Lines,
) -> Result<(), Stop> {
    let end = window.end();
    let mut at = first;
    while at < end {
        let call = call_on(rt, at, window, lines)?;
        let service = call.service;
        let c = window.bytes(at);
        match call.kind {
            Kind::Size => calls::size(node, service, c, lines),
            Kind::Receive => calls::receive(&mut node, service, c, memories, lines),
            Kind::Send => calls::send(&mut node, service, c, out, lines),
            Kind::Report => calls::report(&mut node, c, lines),
            Kind::Routers => calls::routers(&mut node, service, c, lines),
            Kind::Ask => calls::ask(&mut node, service, c, out, lines),
            Kind::Advertisement => calls::advertisement(&mut node, service, c, lines),
            Kind::Part => calls::part(node, service, c, lines),
            Kind::WholeMemory => calls::whole_memory(service, memories, lines),
            Kind::Advertise => {
                let asked = answering::read(at, window)?;
                let packet = window.bytes(asked.packet);
                calls::advertise(node, service, asked, packet, out, lines);
            }
        }
        lines.put(b"\n");
        at = call.next;
    }
    Ok(())
}
