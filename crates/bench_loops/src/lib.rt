// Loops for timing: many calls in one, so that what is timed is the library and not the crossing from C. The answer is the sum, modulo
// 2^64, of what the calls answer: a refused one its number, another its length or size.
#![tactic(auto)]

ghost use Rattle.std.specs.Prelude.{◌≡◌, ◌≤◌, length};
ghost use Rattle.bench_loops.specs.Loops.{part_at, received_worth, sent_worth, sums_from, received_many, sent_many, sent_many_output, sizes_toward};

use node::{Node, ServiceName};
use paths::{LentRows, PathTable};
use receiving::Received;
use refusals::Refusal;
use sending::SendAnswer;

// An IPv6 address. A struct of one field, for C passes no array by value.
#[repr(C)]
#[derive(Clone, Copy)]
pub struct Address {
    pub bytes: [u8; 16],
}

// Of four parts of a size, one behind the other, the one of turn i: they come in turn, so that no turn repeats the last one. A size
// that does not fit four times is read as the longest that does.
#[tactic(auto, unfolding(crate::specs::Loops::part_at))]
fn part_at(all: &[u8], size: usize, i: u32) -> &[u8]
    ensures { result.now ≡ part_at all.now size i }
{
    let size = size.min(all.len() / 4);
    let start = (i % 4) as usize * size;
    let end = start + size;
    &all[start..end]
}

fn received_worth(answer: Result<Received, Refusal>) -> u64
    ensures { result ≡ received_worth answer }
{
    match answer {
        Ok(Received::Delivered { length, .. } | Received::Joined { length, .. }) => length as u64,
        Err(refusal) => refusal.number() as u64,
    }
}

fn sent_worth(answer: SendAnswer) -> u64
    ensures { result ≡ sent_worth answer }
{
    match answer {
        SendAnswer::Wrapped(length) => length as u64,
        SendAnswer::TooBig { size, .. } => size as u64,
        SendAnswer::Refused(refusal) => refusal.number() as u64,
    }
}

// uint64_t bench_checksum(uint32_t start, const uint8_t *bytes, size_t length, size_t size, uint32_t count);
// The sum of count checksums, of four parts of a size by turns: checksum::sum_from.
#[unsafe(no_mangle)]
pub extern "C" fn bench_checksum(start: u32, bytes: &[u8], size: usize, count: u32) -> u64
    ensures { result ≡ sums_from start bytes.now size count }
{
    let mut total: u64 = 0;
    for i in 0..count {
        let sum = checksum::sum_from(start, part_at(bytes, size, i));
        total = total.wrapping_add(sum as u64);
    }
    total
}

// uint64_t bench_receive(struct bogtrumpet_node n, const uint8_t *datagrams, size_t length, size_t size, uint8_t interface, uint32_t time, uint8_t *memory, size_t room, uint32_t count);
// Four datagrams of a size by turns, all at one time: Node::receive. They may be whole, or the pieces of one.
#[tactic(auto, unfolding(crate::specs::Loops::received_more))]
#[unsafe(no_mangle)]
pub extern "C" fn bench_receive(
    n: Node,
    datagrams: &[u8],
    size: usize,
    interface: u8,
    time: u32,
    memory: &mut [u8],
    count: u32,
) -> u64
    ensures value { result ≡ (received_many n datagrams.now size interface time memory.old count).sum }
    ensures memory_after { memory.new ≡ (received_many n datagrams.now size interface time memory.old count).memory }
{
    let mut next = n;
    let mut sum: u64 = 0;
    for i in 0..count {
        let receipt = next.receive(
            ServiceName::First,
            part_at(datagrams, size, i),
            interface,
            time,
            memory,
        );
        next = receipt.node;
        let answer = receipt.answer;
        sum = sum.wrapping_add(received_worth(answer));
    }
    sum
}

// uint64_t bench_send(struct bogtrumpet_node n, const uint8_t *packets, size_t length, size_t size, struct bogtrumpet_address next_hop, size_t locator, uint32_t time, uint8_t *out, size_t room, uint32_t count);
// Four packets of a size by turns, all at one time: Node::send.
#[unsafe(no_mangle)]
pub extern "C" fn bench_send(
    n: Node,
    packets: &[u8],
    size: usize,
    next_hop: Address,
    locator: usize,
    time: u32,
    out: &mut [u8],
    count: u32,
) -> u64
    ensures value { result ≡ sent_many n packets.now size next_hop.bytes locator time (length out.old) count }
    ensures out_after { out.new ≡ sent_many_output n packets.now size next_hop.bytes locator time out.old count }
{
    let hop = next_hop.bytes;
    let mut next = n;
    let mut sum: u64 = 0;
    for i in 0..count {
        let sent = next.send(
            ServiceName::First,
            part_at(packets, size, i),
            hop,
            locator,
            time,
            out,
        );
        next = sent.node;
        let answer = sent.answer;
        sum = sum.wrapping_add(sent_worth(answer));
    }
    sum
}

// uint64_t bench_lookup(struct bogtrumpet_paths table, uint16_t link, uint32_t first, uint32_t count, uint32_t now);
// The sum of the sizes in force toward count neighbours: first, first + 1, ..
#[tactic(auto, unfolding(paths::specs::Table::kept_in))]
#[unsafe(no_mangle)]
pub extern "C" fn bench_lookup(table: PathTable, link: u16, first: u32, count: u32, now: u32) -> u64
    ensures { result ≡ sizes_toward table link first now count }
{
    let mut sum: u64 = 0;
    for i in 0..count {
        let neighbour = first.wrapping_add(i);
        let rows = LentRows {
            neighbours: &table.neighbours,
            sizes: &table.sizes,
            times: &table.times,
            count: table.count,
        };
        let size = rows.size_toward(link, neighbour, now);
        sum = sum + wide(size);
    }
    sum
}

// A size as a number to be summed: its bound, which keeps the sum within 64 bits, is told here once.
fn wide(size: u16) -> u64
    ensures { (result ≡ size) × (result ≤ 65535) }
{
    size as u64
}
