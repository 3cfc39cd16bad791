// Runs cases of the rules without state, of lifetimes and of the router list. They come from standard input, and each is a line of the output:
// its name, and what the library answers. tests/vectors.py writes the cases, and the lines that are expected.
//
// A case is its kind 1, the length of its name 2, one less than its own length 2, its name; then how a number is written 1,
// four numbers n 2, m 2, x 4 and y 4, and the bytes that it is about. A byte past the end reads as 0. A kind is a number: each stands once,
// beside the call that it names. Every byte is a kind, unknown ones go with the last of their range, and what the program does on every input may
// not change.
#![tactic(auto)]

mod answers;
mod operator;
mod rules;
mod tables;
mod writers;

ghost use Rattle.std.specs.Prelude.{◌≡◌, length};

use header::fields;
use input::section;
use routers::RouterList;
use std::io;
use streams::ReadFailed;

// The bytes of a case before its name.
const HEAD: usize = 5;

// The most bytes of cases.
const LIMIT: usize = 131072;

fn space() -> [u8; LIMIT]
    ensures { 131072 ≡ length result }
{
    [0; LIMIT]
}

fn main(rt: HostRuntime) -> io::Result<()> {
    let mut space = space();
    // What could be read is run.
    let n = match streams::read_all(&mut rt.stdin(), &mut space) {
        Ok(count) | Err(ReadFailed { count }) => count,
    };
    run(&rt, &space[..n])
}

// One case after another, on the router list that the last one left.
fn run(rt: &impl Print, cases: &[u8]) -> io::Result<()> {
    let mut rest = cases;
    let mut list = RouterList::new([0; 16], 0);
    while !rest.is_empty() {
        let kind = fields::byte(rest, 0);
        let d = named(rt, rest)?;
        if kind < 50 {
            rules::answer(rt, kind, d)?;
        } else {
            list = tables::routers(rt, list, kind, d)?;
        }
        println!(rt; "")?;
        rest = fields::tail(rest, 1 + fields::word(rest, 3) as usize);
    }
    Ok(())
}

// Begins the line of the first case with its name, and hands over what stands behind that.
fn named<'a>(rt: &impl Print, c: &'a [u8]) -> io::Result<&'a [u8]> {
    let name = fields::word(c, 1) as usize;
    rt.write_all(section::front(fields::tail(c, HEAD), name))?;
    let whole = section::front(c, 1 + fields::word(c, 3) as usize);
    Ok(fields::tail(whole, HEAD + name))
}
