// The program (R17): from the bytes of its input to the bytes of its output.
#![tactic(auto)]

mod lines;

ghost use Rattle.std.specs.Prelude.{◌≡◌, ◌+◌, ◌≤◌, length, replicate};
ghost use Rattle.lent.specs.Written.{written_at};
ghost use Rattle.text.specs.Text.{behind};
ghost use Rattle.pieces.specs.Places.{memory_room};
ghost use Rattle.program.specs.Lines.{lines_from, text_of};
ghost use Rattle.program.specs.Program.{input_room, output_room, IsFront, line_with, lines_of, own_memory, taken_text, count_given, bytes_left};

use input::recording;
use node::{Node, ServiceName};
use receiving::Received;
use refusals::Refusal;

// Room for any input, and for one byte more, so that a longer input is seen.
pub const INPUT_ROOM: usize = input::LIMIT + 1;

// Room for any output: a first line of 16 bytes, and 16 for each three bytes of the input. A datagram without a byte takes those three,
// and is refused in so short a line; one that is delivered takes more.
pub const OUTPUT_ROOM: usize = 16 + 16 * (input::LIMIT / 3);

// Zeros for an input to be read over. Each size has its own function, which says its length to a proof.
pub fn input_room() -> [u8; INPUT_ROOM]
    ensures value { result ≡ replicate input_room 0 }
    ensures input_room_value { input_room ≡ length result }
{
    [0; INPUT_ROOM]
}

// Zeros for an output to be written over.
pub fn output_room() -> [u8; OUTPUT_ROOM]
    ensures value { result ≡ replicate output_room 0 }
    ensures output_room_value { output_room ≡ length result }
{
    [0; OUTPUT_ROOM]
}

// The program's own memory for what is collected.
fn own_memory() -> [u8; pieces::MEMORY]
    ensures value { result ≡ own_memory }
    ensures memory_room_value { memory_room ≡ length result }
{
    [0; pieces::MEMORY]
}

// What the program says of a datagram.
fn line_with(answer: Result<Received, Refusal>) -> Result<usize, Refusal>
    ensures { result ≡ line_with answer }
{
    match answer? {
        Received::Delivered { offset: _, length } | Received::Joined { offset: _, length } => {
            Ok(length)
        }
    }
}

// Writes a line for each datagram of a section. Node and memory are handed on from one to the next. The walk is by hand: input::recording says why.
fn put_lines(node: Node, r: &[u8], memory: &mut [u8], out: &mut [u8], from: usize) -> usize
    requires { from + length (lines_from 1 (lines_of node memory.old r.now)) ≤ length out.old }
    ensures value { result ≡ behind from (lines_from 1 (lines_of node memory.old r.now)) out.old }
    ensures out_after { out.new ≡ written_at from (lines_from 1 (lines_of node memory.old r.now)) out.old }
{
    let n = recording::count(r);
    let mut next = node;
    let mut at = from;
    let mut rest = recording::first(r);
    for k in 0..n {
        let receipt = next.receive(
            ServiceName::First,
            recording::datagram(rest),
            recording::interface(rest),
            0,
            memory,
        );
        next = receipt.node;
        let answer = receipt.answer;
        at = lines::put_line(k + 1, line_with(answer), out, at);
        rest = recording::next(rest);
    }
    at
}

// Writes the whole output for a section of datagrams.
fn put_text(node: Node, r: &[u8], out: &mut [u8]) -> usize
    requires { length (text_of (lines_of node own_memory r.now)) ≤ length out.old }
    ensures value { result ≡ behind 0 (text_of (lines_of node own_memory r.now)) out.old }
    ensures out_after { out.new ≡ written_at 0 (text_of (lines_of node own_memory r.now)) out.old }
{
    let mut memory = own_memory();
    let at = lines::put_count(recording::count(r), out, 0);
    put_lines(node, r, &mut memory, out, at)
}

// Writes the output for a well-formed input.
fn put_taken(s: &[u8], out: &mut [u8]) -> usize
    requires { length (taken_text s.now) ≤ length out.old }
    ensures value { result ≡ behind 0 (taken_text s.now) out.old }
    ensures out_after { out.new ≡ written_at 0 (taken_text s.now) out.old }
{
    let setup = Node::new(input::settings(s));
    let answer = setup.answer;
    match answer {
        Ok(()) => put_text(setup.node, input::behind_settings(s), out),
        Err(_) => lines::put_bad_input(out, 0),
    }
}

// Writes the output for an input of any bytes over the front of out, and gives its length; with less room than for any
// output nothing is written, and 0 is given: no Option, since `count_given` and `IsFront` say so.
pub fn output(s: &[u8], out: &mut [u8]) -> usize
    ensures value { result ≡ count_given s.now out.old }
    ensures out_after { out.new ≡ bytes_left s.now out.old }
    ensures front { IsFront result out.new }
{
    if out.len() < OUTPUT_ROOM {
        return 0;
    }
    if input::well_formed(s) {
        return put_taken(s, out);
    }
    lines::put_bad_input(out, 0)
}
