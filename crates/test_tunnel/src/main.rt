// Runs the program (R17) on the inputs in data/: for each its name, and then the output. The inputs and what is expected come
// from tests/program_cases.py.
#![tactic(auto)]

use std::fs::File;
use std::io;
use streams::ReadFailed;

// Writes the output for what stands in the file, or for as much of it as can be read.
fn answer(rt: &HostRuntime, mut file: File) -> io::Result<()> {
    let mut bytes = program::input_room();
    let n = match streams::read_all(&mut file, &mut bytes) {
        Ok(count) | Err(ReadFailed { count }) => count,
    };
    let mut text = program::output_room();
    let k = program::output(&bytes[..n], &mut text);
    rt.write_all(&text[..k])
}

fn run(rt: &HostRuntime, name: &str) -> io::Result<()> {
    println!(rt; "{name}")?;
    match File::open(rt, name) {
        Ok(file) => answer(rt, file),
        Err(_) => println!(rt; "no such file"),
    }
}

fn run_all(rt: &HostRuntime, names: &[&str]) -> io::Result<()> {
    for name in names {
        run(rt, name)?;
    }
    Ok(())
}

// What receiving answers.
fn received(rt: &HostRuntime) -> io::Result<()> {
    run_all(
        rt,
        &[
            "empty",
            "no_datagram",
            "refused",
            "edges",
            "delivered",
            "pieces",
            "pieces_refused",
            "pieces_of_ten_keys",
            "most_settings",
        ],
    )
}

// Cut off in each section.
fn cut(rt: &HostRuntime) -> io::Result<()> {
    run_all(
        rt,
        &[
            "cut_count",
            "cut_locators",
            "cut_prefixes",
            "cut_routers",
            "cut_datagram_count",
            "cut_datagram_length",
            "cut_datagram",
            "fewer_datagrams",
        ],
    )
}

// Too long, and just not.
fn long(rt: &HostRuntime) -> io::Result<()> {
    run_all(rt, &["trailing_byte", "of_65536_bytes", "of_65537_bytes"])
}

// Refused settings, and some that look like them.
fn settings(rt: &HostRuntime) -> io::Result<()> {
    run_all(
        rt,
        &[
            "no_locator",
            "nine_locators",
            "locator_twice",
            "address_on_two_interfaces",
            "forbidden_locator",
            "nine_prefixes",
            "seventeen_routers",
            "router_twice",
            "forbidden_router",
            "router_of_our_own",
        ],
    )
}

fn main(rt: HostRuntime) -> io::Result<()> {
    received(&rt)?;
    cut(&rt)?;
    long(&rt)?;
    settings(&rt)
}
