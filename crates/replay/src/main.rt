// Reads the settings of one node's services and a list of calls from standard input, makes each call and writes a line for each: docs/REPLAY.md has
// the format. Where a read or a write fails it stops and says so on standard error; input that was not read to its end gets no answer.
#![tactic(auto)]

mod answering;
mod answers;
mod calls;
mod kind;
mod line;
mod spool;
mod start;
mod stop;
mod walk;
mod window;

use node::{Node, Setup};
use start::Start;
use stop::Stop;
use streams::waiting::Lines;
use window::Window;

fn main(rt: HostRuntime) {
    if let Err(stop) = answer(&rt) {
        let _ = eprintln!(rt; "replay: {stop}");
    }
}

// Bad input has an answer too.
fn answer(rt: &HostRuntime) -> Result<(), Stop> {
    match run(rt) {
        Err(Stop::BadInput) => rt.write_all(b"bad input\n").map_err(|_| Stop::Output),
        done => done,
    }
}

// Reads all calls through, and then makes them. A read that fails is told before bad input is.
fn run(rt: &HostRuntime) -> Result<(), Stop> {
    let spool = spool::input(rt)?;
    let start = start::read(&spool)?;
    let good = start.known & (spool.size <= spool::LIMIT);
    let mut window = Window::new(spool);
    walk::check(start.calls, &mut window)?;
    if !good {
        return Err(Stop::BadInput);
    }
    let setup = setup(start);
    match setup.answer {
        Ok(()) => walk::make(rt, setup.node, start.calls, &mut window),
        Err(refusal) => {
            let mut lines = Lines::new();
            answers::settings(refusal, &mut lines);
            lines.put(b"\n");
            lines.write(rt).map_err(|_| Stop::Output)
        }
    }
}

// The node of the start.
fn setup(start: Start) -> Setup {
    match start.second {
        Some(second) => Node::new_pair(start.first, second),
        None => Node::new(start.first),
    }
}
