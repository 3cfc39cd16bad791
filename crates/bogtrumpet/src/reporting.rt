// A size report that was read, judged by the settings of both services and looked up over the lent rows of a path table.
ghost use Rattle.std.specs.Prelude.{◌≡◌};
ghost use Rattle.bogtrumpet.specs.Reporting.{refused_look, accepted_look, looked_below, looked_among};

use super::answers;
use super::answers::Reported;
use paths::{LentRows, Look, reported};
use refusals::Refusal;
use reports::reading::Quote;
use reports::{Report, reading};
use settings::Settings;

// The answer. Of the node a report that is accepted changes the rows of the path table up to that one, how many are in use, and the latest time; any
// other changes the latest time alone.
#[derive(Clone, Copy)]
pub(crate) struct ReportLook {
    pub answer: Reported,
    pub row: usize,
    pub count: usize,
    pub latest: u32,
    // A flag beside row and count, not an Option of them: the law bogtrumpet/proofs/ReportSame: look_same has it for its premise.
    pub accepted: bool,
}

fn refused(refusal: Refusal, latest: u32) -> ReportLook
    ensures { result ≡ refused_look refusal latest }
{
    let answer = answers::plain_reported(Err(refusal));
    ReportLook {
        answer,
        row: 0,
        count: 0,
        latest,
        accepted: false,
    }
}

fn accepted(report: Report, look: Look, latest: u32) -> ReportLook
    ensures { result ≡ accepted_look report look latest }
{
    let answer = answers::plain_reported(Ok(report));
    ReportLook {
        answer,
        row: look.row,
        count: look.count,
        latest,
        accepted: true,
    }
}

// Number 19.
#[tactic(auto, unfolding(crate::specs::Reporting::looked_below))]
fn below(report: Report, look: Look, latest: u32) -> ReportLook
    ensures { result ≡ looked_below report look latest }
{
    if reported::is_below(report.size, look.in_force) {
        accepted(report, look, latest)
    } else {
        refused(Refusal::SizeNotBelow, latest)
    }
}

// At the later of the latest time and this one.
#[tactic(auto, unfolding(crate::specs::Reporting::looked_among))]
pub(crate) fn looked(
    first: Settings,
    second: Settings,
    both: u8,
    rows: LentRows<'_>,
    latest: u32,
    read: Result<Quote, Refusal>,
    time: u32,
) -> ReportLook
    ensures { result ≡ looked_among first second both rows.entry.neighbours.now rows.entry.sizes.now rows.entry.times.now rows.entry.count latest read time }
{
    let latest = latest.max(time);
    let judged = reading::judge(first, second, 0 < both, read);
    match judged {
        Ok(over) => {
            let report = over.report;
            let look = rows.look(over.link, report.neighbour, latest);
            below(report, look, latest)
        }
        Err(refusal) => refused(refusal, latest),
    }
}
