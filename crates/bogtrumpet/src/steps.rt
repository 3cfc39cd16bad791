// A call's answer, and beside it what the call changes of the node: what the functions over a pointer give and store. Service, `both`, latest time and
// number are handed over one by one, for a struct of them would be no plainer: `judged` and `rescheduled` read the service alone, `advertised`
// no time, and `sent` a path size beside them.
ghost use Rattle.std.specs.Prelude.{◌≡◌, max, length};
ghost use Rattle.node.specs.Advertise.{advertised_by, advertised_through};
ghost use Rattle.node.specs.Ask.{asked_through};
ghost use Rattle.node.specs.Receive.{collected_through};
ghost use Rattle.node.specs.Send.{sent_through};
ghost use Rattle.routers.specs.Routers.{rescheduled_of};
ghost use Rattle.bogtrumpet.specs.Answers.{plain_advertised};
ghost use Rattle.bogtrumpet.specs.Gathered.{plain_stage, plain_judged, GatheredAs};
ghost use Rattle.bogtrumpet.specs.declared.steps.PlainStage.TheVariants.{Open};
ghost use Rattle.routers.specs.Routers.{live};
ghost use Rattle.bogtrumpet.specs.Numbered.{is_there};
ghost use Rattle.bogtrumpet.specs.Plain.{bytes_of, advertisement_from};
ghost use Rattle.bogtrumpet.specs.Steps.{sent_step, replaced_step, AskedAs, HeardAs};

use super::answers::{Advertised, Asked, Heard, Received, Sent};
use super::plain::Advertisement;
use super::{Address, Addresses, answers, numbered, plain};
use node::{Service, advertise, ask, hear, router_list, send};
use pieces::Place;
use receiving::judging::{Opening, Stage};
use receiving::{collect, judging};
use refusals::Refusal;
use routers::{Router, RouterList};

// Of the node a sending changes the next identification of its service and the latest time alone.
#[derive(Clone, Copy)]
pub struct SentStep {
    pub answer: Sent,
    pub identification: u16,
    pub latest: u32,
}

// What is read of a datagram, or the number, in one enum: as a `Result` of an optional opening a delivery took two instructions more. The number is
// told where the refusal is, which the compiler knows there, and so is looked up nowhere.
#[derive(Clone, Copy)]
pub(crate) enum PlainStage {
    Open(receiving::Received, Opening),
    Passed(receiving::Received),
    Refused(u8),
}

// Of the node a piece that comes to the collection of its service changes one place there and the latest time, any other datagram the latest time
// alone.
#[derive(Clone, Copy)]
pub(crate) struct GatheredStep {
    pub stage: PlainStage,
    pub stored: Option<(usize, Place)>,
    pub latest: u32,
}

// Of the node a new router list changes the router list of its service and the latest time alone.
#[derive(Clone, Copy)]
pub struct ReplacedStep {
    // The number, 0 for a list that is taken: bogtrumpet_replace_routers answers nothing else.
    pub answer: u8,
    pub routers: RouterList,
    pub latest: u32,
}

// Of the node an asking and an advertisement change the latest time and, where there is one, the due time of a router of their service.
#[derive(Clone, Copy)]
pub struct RouterStep<A> {
    pub answer: A,
    pub latest: u32,
    pub rescheduled: Option<Router>,
}

fn plain_stage(stage: Result<Stage, Refusal>) -> PlainStage
    ensures { result ≡ plain_stage stage }
{
    match stage {
        Ok(
            Stage {
                received,
                open: Some(x),
            },
        ) => PlainStage::Open(received, x),
        Ok(
            Stage {
                received,
                open: None,
            },
        ) => PlainStage::Passed(received),
        Err(refusal) => PlainStage::Refused(refusal.number()),
    }
}

// A datagram up to what is to be judged of it: receiving::collect::gather.
pub(crate) fn gathered(
    named: Service,
    both: u8,
    latest: u32,
    service: u8,
    datagram: &[u8],
    interface: u8,
    time: u32,
    memory: &mut [u8],
) -> GatheredStep
    ensures { GatheredAs (is_there both service) named (max latest time) datagram.now interface memory.old result
        × (memory.new ≡ collected_through (is_there both service) named (max latest time) datagram.now interface memory.old) }
{
    let latest = latest.max(time);
    if numbered::there(both, service) {
        let settings = named.settings;
        let pieces = named.pieces;
        let gathered = collect::gather(settings, pieces, latest, datagram, interface, memory);
        return GatheredStep {
            stage: plain_stage(gathered.stage),
            stored: gathered.stored,
            latest,
        };
    }
    GatheredStep {
        stage: plain_stage(Err(Refusal::NoLocator)),
        stored: None,
        latest,
    }
}

// What comes of what is to be judged, by the service as it is then: receiving::judging::judge.
pub(crate) fn judged(named: Service, received: receiving::Received, x: Opening) -> Received
    ensures { result ≡ plain_judged named.settings (live named.routers) (Open received x) }
{
    let settings = named.settings;
    let routers = named.routers;
    let stage = Stage {
        received,
        open: Some(x),
    };
    answers::plain_received(judging::judge(settings, routers, Ok(stage)))
}

// A sending over a path of that size: node::send::sent_by.
#[tactic(auto, unfolding(crate::specs::Steps::sent_step))]
pub fn sent(
    named: Service,
    both: u8,
    latest: u32,
    path_size: u16,
    service: u8,
    packet: &[u8],
    next_hop: Address,
    locator: usize,
    time: u32,
    out: &mut [u8],
) -> SentStep
    ensures { (result ≡ sent_step (is_there both service) named latest path_size packet.now (bytes_of next_hop) locator time (length out.old))
        × (out.new ≡ sent_through (is_there both service) named path_size packet.now (bytes_of next_hop) locator out.old) }
{
    let bytes = plain::bytes(next_hop);
    let there = numbered::there_by_most(both, service);
    let sent = send::sent_by(there, named, path_size, packet, bytes, locator, out);
    let given = sent.answer;
    let answer = answers::plain_sent(given);
    SentStep {
        answer,
        identification: sent.identification,
        latest: latest.max(time),
    }
}

// A new router list: node::router_list::replaced_by.
#[tactic(auto, unfolding(crate::specs::Steps::replaced_step))]
pub fn replaced(
    named: Service,
    both: u8,
    latest: u32,
    service: u8,
    list: Addresses,
    time: u32,
) -> ReplacedStep
    ensures { result ≡ replaced_step (is_there both service) named latest list.routers list.count time }
{
    let latest = latest.max(time);
    let there = numbered::there(both, service);
    let addresses = list.routers;
    let done = router_list::replaced_by(there, named, latest, addresses, list.count);
    let given = done.answer;
    let routers = done.routers;
    let answer = refusals::number(given);
    ReplacedStep {
        answer,
        routers,
        latest,
    }
}

// Asking: node::ask::answered_by.
pub fn asked(
    named: Service,
    both: u8,
    latest: u32,
    service: u8,
    locator: usize,
    time: u32,
    out: &mut [u8],
) -> RouterStep<Asked>
    ensures { AskedAs (is_there both service) named latest locator time (length out.old) result
        × (out.new ≡ asked_through (is_there both service) named (max latest time) locator out.old) }
{
    let latest = latest.max(time);
    let there = numbered::there(both, service);
    let given = ask::answered_by(there, named, latest, locator, out);
    let due = latest as u64 + named.settings.interval as u64;
    let rescheduled = given.ok().map(|address| Router { address, due });
    RouterStep {
        answer: answers::plain_asked(given),
        latest,
        rescheduled,
    }
}

// An advertisement: node::hear::judged_by.
pub fn heard(
    named: Service,
    both: u8,
    latest: u32,
    service: u8,
    packet: &[u8],
    time: u32,
) -> RouterStep<Heard>
    ensures { HeardAs (is_there both service) named latest packet.now time result }
{
    let latest = latest.max(time);
    let there = numbered::there(both, service);
    let judged = hear::judged_by(there, named, latest, packet);
    RouterStep {
        answer: answers::plain_heard(judged.map(|router| router.address)),
        latest,
        rescheduled: judged.ok(),
    }
}

// The router list of a service once a router of it is due at another time.
pub fn rescheduled(named: Service, router: Router) -> RouterList
    ensures { result ≡ rescheduled_of router.address router.due named.routers }
{
    let routers = named.routers;
    routers.rescheduled(router.address, router.due)
}

// An answer to a solicitation: node::advertise::advertised_by.
pub fn advertised(
    named: Service,
    both: u8,
    service: u8,
    packet: &[u8],
    locator: usize,
    advertisement: Advertisement,
    out: &mut [u8],
) -> Advertised
    ensures { (result ≡ plain_advertised (advertised_by (is_there both service) named packet.now locator (advertisement_from advertisement) (length out.old)))
        × (out.new ≡ advertised_through (is_there both service) named packet.now locator (advertisement_from advertisement) out.old) }
{
    let there = numbered::there_by_most(both, service);
    let told = plain::advertisement_from(advertisement);
    answers::plain_advertised(advertise::advertised_by(there, named, packet, locator, told, out))
}
