// Compares two recordings (R27) that stand in standard input, and writes what comes of it: docs/REPLAY.md has the format. Where a read or a
// write fails it says so on standard error; input that was not read to its end gets no answer.
#![tactic(auto)]

mod given;
mod lines;

use given::{Input, Space};
use input::section;
use std::io;

fn main(rt: HostRuntime) {
    let mut bytes = [0; given::LIMIT + 1];
    let mut space = [given::BLANK; given::LIMIT];
    run(&rt, &mut bytes, &mut space);
}

// Here the two are so many bytes, whatever they hold: to a proof about main they are a list of them all.
fn run(rt: &HostRuntime, bytes: &mut Input, space: &mut Space) {
    let Ok(count) = streams::read_all(&mut rt.stdin(), bytes) else {
        let _ = eprintln!(rt; "recordings: standard input could not be read");
        return;
    };
    if answer(rt, section::front(bytes, count), space).is_err() {
        let _ = eprintln!(rt; "recordings: standard output could not be written");
    }
}

// Compares the recordings of an input, with as much of the space for an output as it says.
fn answer(rt: &HostRuntime, input: &[u8], space: &mut [u8]) -> io::Result<()> {
    let Some(given) = given::read(input) else {
        return rt.write_all(b"bad input\n");
    };
    let room = given.room.min(space.len());
    let out = &mut space[..room];
    let answer = comparing::compare(given.masked, given.first, given.second, out);
    lines::write(rt, answer, out)
}
