// The call with a size report.
ghost use Rattle.std.specs.Prelude.{◌≡◌};
ghost use Rattle.reports.specs.Report.{neighbour_in};
ghost use Rattle.node.specs.Report.{paths_after, reported_to, reported_by, report_of};

use super::{Node, ServiceName};
use header::outer;
use paths::PathTable;
use refusals::Refusal;
use reports::Report;

#[derive(Clone, Copy)]
pub struct Reported {
    pub answer: Result<Report, Refusal>,
    pub node: Node,
}

// The answer to a report, and the path table afterwards.
#[derive(Clone, Copy)]
pub struct ReportStep {
    pub answer: Result<Report, Refusal>,
    pub paths: PathTable,
}

// The neighbour that a judged report names.
fn neighbour_in(judged: Result<Report, Refusal>) -> u32
    ensures { result ≡ neighbour_in judged }
{
    judged.map_or(0, |report| report.neighbour)
}

fn paths_after(answer: Result<Report, Refusal>, table: PathTable, now: u32) -> PathTable
    ensures { result ≡ paths_after answer table now }
{
    match answer {
        Ok(report) => table.accepted(report.neighbour, report.size, now),
        Err(_) => table,
    }
}

impl Node {
    // The service that a report belongs to: the one whose locator address it quotes as its source.
    fn reported_to(self, message: &[u8]) -> ServiceName
        ensures { result ≡ reported_to self message.now }
    {
        let quoted = outer::outer_header(outer::quote(message));
        let first = self.first;
        let second = self.second;
        let a = first.settings;
        let b = second.settings;
        if (0 < self.both) & (!a.ours(quoted.source) & b.ours(quoted.source)) {
            ServiceName::Second
        } else {
            ServiceName::First
        }
    }

    // What the node makes of it at the latest time: the node is only read.
    pub fn reported_by(self, message: &[u8], latest: u32) -> ReportStep
        ensures { result ≡ reported_by self message.now latest }
    {
        let name = self.reported_to(message);
        let service = self.service(name);
        let settings = service.settings;
        let judged = reports::judge(settings, message);
        let size = self.size_at(name, neighbour_in(judged), latest);
        let answer = reports::answer(judged, size);
        let table = self.paths;
        let paths = paths_after(answer, table, latest);
        ReportStep { answer, paths }
    }

    pub fn report(mut self, message: &[u8], time: u32) -> Reported
        ensures { result ≡ report_of self message.now time }
    {
        let latest = self.latest.max(time);
        let step = self.reported_by(message, latest);
        let paths = step.paths;
        let answer = step.answer;
        self.paths = paths;
        self.latest = latest;
        Reported { answer, node: self }
    }
}
