// Receiving: whether a datagram is delivered, and which part of it. Here a datagram is judged by itself; `collect` joins pieces.
#![tactic(auto)]

pub mod collect;
pub mod judging;

ghost use Rattle.std.specs.Prelude.{◌≡◌};
ghost use Rattle.lists.specs.Parts.{part};
ghost use Rattle.routers.specs.Routers.{live};
ghost use Rattle.receiving.specs.Receive.{received_of, part_of};
ghost use Rattle.receiving.specs.Stages.{address_check, whole_opened, ReadAs};

use header::outer::Outer;
use header::{fields, outer};
use judging::Stage;
use refusals::Refusal;
use routers::RouterList;
use settings::Settings;

// Where the inner packet stands, and its length: in the datagram, or in the memory where its pieces were joined.
#[derive(Clone, Copy, Debug, PartialEq, Eq)]
pub enum Received {
    Delivered { offset: usize, length: usize },
    Joined { offset: usize, length: usize },
}

// Numbers 6 and 7.
fn check_addresses(settings: Settings, interface: u8, o: Outer) -> Result<(), Refusal>
    ensures { result ≡ address_check settings interface o }
{
    if !settings.our_locator(o.destination, interface) {
        return Err(Refusal::NotForUs);
    }
    if settings.forbidden_to(o.source) {
        return Err(Refusal::OuterSourceForbidden);
    }
    Ok(())
}

// What is read of a datagram that has arrived whole, or the number.
fn read_whole(d: &[u8], o: Outer) -> Result<Stage, Refusal>
    ensures { ReadAs (λ s routers. whole_opened s routers d.now o) result }
{
    let payload = outer::payload(d, o);
    let read = judging::read_inner(o.source, payload)?;
    let received = Received::Delivered {
        offset: o.header,
        length: read.length,
    };
    Ok(Stage {
        received,
        open: read.open,
    })
}

// Where the inner packet of a datagram that arrives on an interface stands, or the number.
pub fn receive(
    settings: Settings,
    routers: RouterList,
    d: &[u8],
    interface: u8,
) -> Result<Received, Refusal>
    ensures { result ≡ received_of settings (live routers) d.now interface }
{
    let o = outer::read_outer(d)?;
    check_addresses(settings, interface, o)?;
    judging::judge(settings, routers, read_whole(d, o))
}

// So many bytes from an index on, as far as there are any.
fn bytes_at(d: &[u8], at: usize, n: usize) -> &[u8]
    ensures { result.now ≡ part at n d.now }
{
    let behind = fields::tail(d, at);
    let end = n.min(behind.len());
    &behind[..end]
}

// The inner packet in the datagram, empty after a refusal: a part of the caller's slice (R21.1), and no Option, since `part_of` says empty.
pub fn part(d: &[u8], received: Result<Received, Refusal>) -> &[u8]
    ensures { result.now ≡ part_of received d.now }
{
    match received {
        Ok(Received::Delivered { offset, length }) => bytes_at(d, offset, length),
        _ => &d[..0],
    }
}
