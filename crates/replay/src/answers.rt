// The line of each answer, but for the line feed that ends it.
use crate::line;
use header::fields;
use input::section;
use receiving::Received;
use refusals::Refusal;
use reports::Report;
use sending::SendAnswer;
use streams::waiting::Lines;

// Words, and the number of a refusal.
fn refused(words: &[u8], refusal: Refusal, lines: &mut Lines) {
    lines.put(words);
    line::refusal(refusal, lines);
}

// Words, and a number.
fn number(words: &[u8], n: usize, lines: &mut Lines) {
    lines.put(words);
    line::number(n as u64, lines);
}

// Words, and two numbers.
fn numbers(words: &[u8], a: usize, b: usize, lines: &mut Lines) {
    number(words, a, lines);
    line::number(b as u64, lines);
}

// Words, and an address.
fn address(words: &[u8], a: u32, lines: &mut Lines) {
    lines.put(words);
    line::address(a, lines);
}

// What is joined stands in the memory that was lent.
pub(crate) fn receive(answer: Result<Received, Refusal>, memory: &[u8], lines: &mut Lines) {
    match answer {
        Ok(Received::Delivered { offset, length }) => {
            numbers(b"receive deliver", offset, length, lines);
        }
        Ok(Received::Joined { offset, length }) => {
            numbers(b"receive joined", offset, length, lines);
            line::digest(section::front(fields::tail(memory, offset), length), lines);
        }
        Err(refusal) => refused(b"receive refuse", refusal, lines),
    }
}

pub(crate) fn memory(memory: &[u8], lines: &mut Lines) {
    lines.put(b"memory");
    line::digest(memory, lines);
}

pub(crate) fn part(part: &[u8], lines: &mut Lines) {
    number(b"part", part.len(), lines);
    line::digest(part, lines);
}

pub(crate) fn send(answer: SendAnswer, out: &[u8], lines: &mut Lines) {
    match answer {
        SendAnswer::Wrapped(length) => number(b"send wrapped", length, lines),
        SendAnswer::TooBig { size, written } => {
            numbers(b"send too-big", size as usize, written, lines);
        }
        SendAnswer::Refused(refusal) => refused(b"send refuse", refusal, lines),
    }
    line::digest(out, lines);
}

pub(crate) fn report(answer: Result<Report, Refusal>, lines: &mut Lines) {
    match answer {
        Ok(report) => {
            address(b"report accepted", report.neighbour, lines);
            line::number(report.size as u64, lines);
        }
        Err(refusal) => refused(b"report refuse", refusal, lines),
    }
}

// The count is that of the new list.
pub(crate) fn routers(answer: Result<(), Refusal>, count: usize, lines: &mut Lines) {
    match answer {
        Ok(()) => number(b"routers accepted", count, lines),
        Err(refusal) => refused(b"routers refuse", refusal, lines),
    }
}

pub(crate) fn ask(answer: Result<u32, Refusal>, out: &[u8], lines: &mut Lines) {
    match answer {
        Ok(router) => address(b"ask", router, lines),
        Err(refusal) => refused(b"ask refuse", refusal, lines),
    }
    line::digest(out, lines);
}

pub(crate) fn advertisement(answer: Result<u32, Refusal>, lines: &mut Lines) {
    match answer {
        Ok(router) => address(b"advertisement", router, lines),
        Err(refusal) => refused(b"advertisement refuse", refusal, lines),
    }
}

pub(crate) fn advertise(answer: Result<usize, Refusal>, out: &[u8], lines: &mut Lines) {
    match answer {
        Ok(length) => number(b"advertise written", length, lines),
        Err(refusal) => refused(b"advertise refuse", refusal, lines),
    }
    line::digest(out, lines);
}

pub(crate) fn size(answer: Result<u16, Refusal>, lines: &mut Lines) {
    match answer {
        Ok(size) => number(b"size", size as usize, lines),
        Err(refusal) => refused(b"size refuse", refusal, lines),
    }
}

// The line of refused settings.
pub(crate) fn settings(refusal: Refusal, lines: &mut Lines) {
    refused(b"settings refuse", refusal, lines);
}
