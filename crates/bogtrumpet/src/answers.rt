// Each call's answer as a struct of C: the number (R4), 0 where the call was not refused, and the values that go with it. A value
// that an answer does not have is 0. C has a name for each call's answer, so those of one shape (Asked and Heard) are two structs, and those that
// differ in one field (Sized, Asked, Advertised) are no generic one.
ghost use Rattle.std.specs.Prelude.{◌≡◌, false};
ghost use Rattle.bogtrumpet.specs.Answers.{plain_received, plain_sized, plain_sent, plain_reported, plain_asked, plain_heard, plain_advertised};

use refusals::Refusal;
use reports::Report;
use sending::SendAnswer;

// Where the inner packet stands: in the memory where it was joined of pieces, else in the datagram.
#[repr(C)]
#[derive(Clone, Copy)]
pub struct Received {
    pub number: u8,
    pub joined: bool,
    pub offset: usize,
    pub length: usize,
}

#[repr(C)]
#[derive(Clone, Copy)]
pub struct Sized {
    pub number: u8,
    pub size: u16,
}

// With 0 the length of the datagram written; with 14 the size M and the length of the message written. Each length has a field of its
// own: a caller who forgets the number puts no message on the IPv4 wire.
#[repr(C)]
#[derive(Clone, Copy)]
pub struct Sent {
    pub number: u8,
    pub size: u16,
    pub length: usize,
    pub message_length: usize,
}

#[repr(C)]
#[derive(Clone, Copy)]
pub struct Reported {
    pub number: u8,
    pub neighbour: u32,
    pub size: u16,
}

// The router that is asked.
#[repr(C)]
#[derive(Clone, Copy)]
pub struct Asked {
    pub number: u8,
    pub router: u32,
}

// The router that advertised.
#[repr(C)]
#[derive(Clone, Copy)]
pub struct Heard {
    pub number: u8,
    pub router: u32,
}

// The length of the advertisement written.
#[repr(C)]
#[derive(Clone, Copy)]
pub struct Advertised {
    pub number: u8,
    pub length: usize,
}

pub fn plain_received(answer: Result<receiving::Received, Refusal>) -> Received
    ensures { result ≡ plain_received answer }
{
    match answer {
        Ok(receiving::Received::Delivered { offset, length }) => Received {
            number: 0,
            joined: false,
            offset,
            length,
        },
        Ok(receiving::Received::Joined { offset, length }) => Received {
            number: 0,
            joined: true,
            offset,
            length,
        },
        Err(refusal) => refused(refusal.number()),
    }
}

// The plain answer with a number alone.
pub(crate) fn refused(number: u8) -> Received
    ensures { result ≡ record { number = number; joined = false; offset = 0; length = 0 } }
{
    Received {
        number,
        joined: false,
        offset: 0,
        length: 0,
    }
}

pub fn plain_sized(answer: Result<u16, Refusal>) -> Sized
    ensures { result ≡ plain_sized answer }
{
    match answer {
        Ok(size) => Sized { number: 0, size },
        Err(refusal) => Sized {
            number: refusal.number(),
            size: 0,
        },
    }
}

// Each number stands where its values do: SendAnswer::number would match the same three cases once more.
pub fn plain_sent(answer: SendAnswer) -> Sent
    ensures { result ≡ plain_sent answer }
{
    match answer {
        SendAnswer::Wrapped(length) => Sent {
            number: 0,
            size: 0,
            length,
            message_length: 0,
        },
        SendAnswer::TooBig { size, written } => Sent {
            number: 14,
            size,
            length: 0,
            message_length: written,
        },
        SendAnswer::Refused(refusal) => Sent {
            number: refusal.number(),
            size: 0,
            length: 0,
            message_length: 0,
        },
    }
}

pub fn plain_reported(answer: Result<Report, Refusal>) -> Reported
    ensures { result ≡ plain_reported answer }
{
    match answer {
        Ok(report) => Reported {
            number: 0,
            neighbour: report.neighbour,
            size: report.size,
        },
        Err(refusal) => Reported {
            number: refusal.number(),
            neighbour: 0,
            size: 0,
        },
    }
}

pub fn plain_asked(answer: Result<u32, Refusal>) -> Asked
    ensures { result ≡ plain_asked answer }
{
    match answer {
        Ok(router) => Asked { number: 0, router },
        Err(refusal) => Asked {
            number: refusal.number(),
            router: 0,
        },
    }
}

pub fn plain_heard(answer: Result<u32, Refusal>) -> Heard
    ensures { result ≡ plain_heard answer }
{
    match answer {
        Ok(router) => Heard { number: 0, router },
        Err(refusal) => Heard {
            number: refusal.number(),
            router: 0,
        },
    }
}

pub fn plain_advertised(answer: Result<usize, Refusal>) -> Advertised
    ensures { result ≡ plain_advertised answer }
{
    match answer {
        Ok(length) => Advertised { number: 0, length },
        Err(refusal) => Advertised {
            number: refusal.number(),
            length: 0,
        },
    }
}
