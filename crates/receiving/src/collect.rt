// The call for the number, up to what is to be judged: of a whole datagram its inner packet, of a piece what it completes.
ghost use Rattle.std.specs.Prelude.{◌≡◌, ◌<◌, List, None, IfSome};
ghost use Rattle.pieces.specs.Places.{places};
ghost use Rattle.routers.specs.declared.Router.{Router};
ghost use Rattle.receiving.specs.Collect.{piece_of, joined_by, taken_piece, taken_memory, collected_of, collected_memory};
ghost use Rattle.receiving.specs.Stages.{arrival_of, InMemory, ReadAs, judged_with, GatheredAs, settled_of, settled_memory};

use crate::judging::Stage;
use crate::{Received, bytes_at, check_addresses, judging, read_whole};
use header::outer::Outer;
use header::{fields, outer};
use pieces::{Collection, Joined, Key, MEMORY, Piece, Place, ROOM};
use refusals::Refusal;
use settings::Settings;

// What is read of the inner packet, or the number; and, where a piece came to the collection, a place and what then stands there.
#[derive(Clone, Copy)]
pub struct Gathered {
    pub stage: Result<Stage, Refusal>,
    pub stored: Option<(usize, Place)>,
}

// The outer header of a datagram that is for us, or the first of the numbers 15, 2, 3, 4, 6 and 7, where so many bytes of memory are lent.
fn arrival(settings: Settings, d: &[u8], interface: u8, lent: usize) -> Result<Outer, Refusal>
    ensures { result ≡ arrival_of settings interface lent d.now }
{
    if lent < MEMORY {
        return Err(Refusal::OutputShort);
    }
    let o = outer::read_header(d)?;
    check_addresses(settings, interface, o)?;
    Ok(o)
}

// The fields of a piece, its payload aside.
fn piece_of(d: &[u8], o: Outer) -> Piece
    ensures { result ≡ piece_of d.now o }
{
    let key = Key {
        source: o.source,
        destination: o.destination,
        identification: fields::word(d, 4),
        protocol: o.protocol,
    };
    Piece {
        key,
        offset: o.fragment % 8192,
        more: 8192 <= o.fragment,
    }
}

// What is read of a joined datagram from that outer source, once it is known what comes of a piece; or the number.
fn stage_of(taken: Result<Joined, Refusal>, source: u32, memory: &[u8]) -> Result<Stage, Refusal>
    requires { InMemory taken }
    ensures { ReadAs (λ s routers. joined_by s routers source taken memory.now) result }
{
    let joined = taken?;
    let offset = ROOM * joined.place;
    let payload = bytes_at(memory, offset, joined.length);
    let read = judging::read_inner(source, payload)?;
    let received = Received::Joined {
        offset,
        length: read.length,
    };
    Ok(Stage {
        received,
        open: read.open,
    })
}

// A piece that has arrived is taken into the collection.
fn gather_piece(pieces: Collection, time: u32, d: &[u8], o: Outer, memory: &mut [u8]) -> Gathered
    ensures gathered_as { GatheredAs pieces (λ s routers. taken_piece s routers pieces time d.now o memory.old) result }
    ensures memory_after { memory.new ≡ taken_memory pieces time d.now o memory.old }
{
    let piece = piece_of(d, o);
    let payload = outer::payload(d, o);
    let taken = pieces.take(piece, payload, time, memory);
    let answer = taken.answer;
    let place = taken.place;
    let stage = stage_of(answer, o.source, memory);
    Gathered {
        stage,
        stored: Some((taken.at, place)),
    }
}

// No piece came to the collection.
fn unchanged(stage: Result<Stage, Refusal>) -> Gathered
    ensures { result ≡ record { stage = stage; stored = None } }
{
    Gathered {
        stage,
        stored: None,
    }
}

// What is read of a datagram that has arrived. A whole one leaves what is collected.
fn gather_arrived(pieces: Collection, time: u32, d: &[u8], o: Outer, memory: &mut [u8]) -> Gathered
    ensures gathered_as { GatheredAs pieces (λ s routers. settled_of s routers pieces time d.now o memory.old) result }
    ensures memory_after { memory.new ≡ settled_memory pieces time d.now o memory.old }
{
    if o.fragment != 0 {
        return gather_piece(pieces, time, d, o, memory);
    }
    unchanged(read_whole(d, o))
}

// 15, 2, 3, 4, 6 and 7; then a piece is collected; and what is read then of a whole datagram or of a joined one.
pub fn gather(
    settings: Settings,
    pieces: Collection,
    time: u32,
    d: &[u8],
    interface: u8,
    memory: &mut [u8],
) -> Gathered
    ensures judged { (routers : List Router) → judged_with settings routers pieces result ≡ collected_of settings routers pieces time d.now interface memory.old }
    ensures at_lt_places { IfSome result.stored (λ x. x.0 < places) }
    ensures memory_after { memory.new ≡ collected_memory settings pieces time d.now interface memory.old }
{
    match arrival(settings, d, interface, memory.len()) {
        Ok(o) => gather_arrived(pieces, time, d, o, memory),
        Err(refusal) => unchanged(Err(refusal)),
    }
}
