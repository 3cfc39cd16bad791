// What stands in a line of the output, word by word. `write!` has no place here: it takes twice the instructions.
use header::fields;
use refusals::Refusal;
use streams::waiting::Lines;
use text::digests;

// Puts a number behind a space.
pub(crate) fn number(n: u64, lines: &mut Lines) {
    lines.put(b" ");
    lines.put_decimal(n);
}

pub(crate) fn refusal(refusal: Refusal, lines: &mut Lines) {
    number(refusal.number() as u64, lines);
}

// Puts an IPv4 address in dotted decimal behind a space.
pub(crate) fn address(a: u32, lines: &mut Lines) {
    let [first, second, third, last] = fields::quad_bytes(a);
    number(first as u64, lines);
    octet(second, lines);
    octet(third, lines);
    octet(last, lines);
}

// Puts a number behind a dot.
fn octet(n: u8, lines: &mut Lines) {
    lines.put(b".");
    lines.put_decimal(n as u64);
}

// Puts the digest of bytes behind a space.
pub(crate) fn digest(bytes: &[u8], lines: &mut Lines) {
    lines.put(b" ");
    lines.put_hexadecimal(digests::digest(bytes));
}
