// Asking a router: which one is asked, the solicitation that it gets, and when it is due again.
#![tactic(auto)]

ghost use Rattle.std.specs.Prelude.{◌≡◌, ◌+◌, length};
ghost use Rattle.asking.specs.Ask.{answered_with, asked_of, asked_output, ask_given};

use refusals::Refusal;
use routers::RouterList;
use settings::Settings;

// The answer, and the router list after the asking.
// A struct and no Result: after a refusal the list is handed back too (R1.12).
#[derive(Clone, Copy)]
pub struct Asked {
    pub answer: Result<u32, Refusal>,
    pub routers: RouterList,
}

// The answer to one asking at a time; out gets the solicitation.
pub fn answer(
    settings: Settings,
    routers: RouterList,
    time: u32,
    locator: usize,
    out: &mut [u8],
) -> Result<u32, Refusal>
    ensures routers_value { answered_with result (time + settings.interval) routers ≡ asked_of settings routers time locator (length out.old) }
    ensures out_after { out.new ≡ asked_output settings routers time locator out.old }
{
    let from = settings.locator(locator).ok_or(Refusal::NoLocator)?;
    let router = routers.next(time).ok_or(Refusal::NoRouterDue)?;
    let source = address::link_local(from);
    let destination = address::link_local(router);
    messages::solicitation(source, destination, out)?;
    Ok(router)
}

// An answer, and the router list after it: a router that is asked is due at `due`.
pub fn answered_with(answer: Result<u32, Refusal>, due: u64, routers: RouterList) -> Asked
    ensures { result ≡ answered_with answer due routers }
{
    let after = match answer {
        Ok(router) => routers.rescheduled(router, due),
        Err(_) => routers,
    };
    Asked {
        answer,
        routers: after,
    }
}

// One asking at a time: who is asked, and the router list after it; out gets the solicitation.
pub fn ask(
    settings: Settings,
    routers: RouterList,
    time: u32,
    locator: usize,
    out: &mut [u8],
) -> Asked
    ensures value { result ≡ asked_of settings routers time locator (length out.old) }
    ensures out_after { out.new ≡ asked_output settings routers time locator out.old }
{
    let given = answer(settings, routers, time, locator, out);
    answered_with(given, time as u64 + settings.interval as u64, routers)
}
