// The input: masked or not, the room of the output, the length of the first recording, and the two recordings.
use header::fields;

// The most bytes that are taken, and the largest room.
pub(crate) const LIMIT: usize = 1048576;

// The longest input, and one byte more, which shows that an input is longer.
pub(crate) type Input = [u8; LIMIT + 1];

// The space for the output: no room is larger.
pub(crate) type Space = [u8; LIMIT];

// What each byte of the output holds before the call.
pub(crate) const BLANK: u8 = 165;

// The bytes before the recordings.
const HEAD: usize = 9;

// What the input says.
#[derive(Clone, Copy)]
pub(crate) struct Given<'a> {
    // Whether identification, TTL and checksum count as equal.
    pub(crate) masked: bool,
    pub(crate) room: usize,
    pub(crate) first: &'a [u8],
    pub(crate) second: &'a [u8],
}

// None where the input is cut off or too long, or its numbers are not such as may be given.
pub(crate) fn read(input: &[u8]) -> Option<Given<'_>> {
    if (input.len() < HEAD) | (LIMIT < input.len()) {
        return None;
    }
    let masked = match fields::byte(input, 0) {
        0 => false,
        1 => true,
        _ => return None,
    };
    let room = fields::quad(input, 1) as usize;
    if LIMIT < room {
        return None;
    }
    let recordings = fields::tail(input, HEAD);
    let (first, second) = recordings.split_at_checked(fields::quad(input, 5) as usize)?;
    Some(Given {
        masked,
        room,
        first,
        second,
    })
}
