// Text written into a lent slice: each function writes from the index at on and gives the index behind what it wrote;
// where it does not fit, nothing is written and at is given back: no Option, since `result ≡ behind at ..` of each says so, which may not change.
// Slice and index are no struct with methods: tried, and its clauses did not tie what a method wrote to the slice that was lent.
#![tactic(auto)]

pub mod digests;

ghost use Rattle.std.specs.Prelude.{◌≡◌, ◌+◌, ◌<◌, length, drop};
ghost use Rattle.lent.specs.Written.{written_at};
ghost use Rattle.text.specs.Text.{end_of, behind, decimal};
ghost use Rattle.text.specs.Digest.{hex_digit, hexadecimal};

fn end_of(at: usize, n: usize, room: usize) -> usize
    ensures { result ≡ end_of at n room }
{
    match at.checked_add(n) {
        Some(end) if end <= room => end,
        _ => at,
    }
}

// Writes the bytes of a word.
pub fn put(word: &[u8], out: &mut [u8], at: usize) -> usize
    ensures value { result ≡ behind at word.now out.old }
    ensures out_after { out.new ≡ written_at at word.now out.old }
{
    let end = end_of(at, word.len(), out.len());
    lent::write_at(word, out, at);
    end
}

// The last bytes of twenty, from the index start on: no heap here, and no number has more digits.
#[derive(Clone, Copy)]
struct Digits {
    bytes: [u8; 20],
    start: usize,
}

// A number's digits, written from the last one on.
fn decimal_digits(n: u64) -> Digits
    ensures { (drop result.start result.bytes ≡ decimal n) × (result.start < 20) × (length result.bytes ≡ 20) }
{
    // The number is what is counted down: a loop over the places would have to be left as well.
    let mut bytes = [0u8; 20];
    let mut start: usize = 19;
    let mut rest = n;
    while 10 <= rest {
        bytes[start] = b'0' + (rest % 10) as u8;
        rest = rest / 10;
        start -= 1;
    }
    bytes[start] = b'0' + rest as u8;
    Digits { bytes, start }
}

// Writes a number in decimal.
pub fn put_decimal(n: u64, out: &mut [u8], at: usize) -> usize
    ensures value { result ≡ behind at (decimal n) out.old }
    ensures out_after { out.new ≡ written_at at (decimal n) out.old }
{
    let Digits { bytes, start } = decimal_digits(n);
    put(&bytes[start..], out, at)
}

// The last hexadecimal digit of a number.
fn hex_digit(n: u32) -> u8
    ensures { result ≡ hex_digit n }
{
    let digit = (n % 16) as u8;
    if digit < 10 {
        b'0' + digit
    } else {
        b'a' - 10 + digit
    }
}

// The eight hexadecimal digits of a number. No {:08x}: `write!` takes twice the instructions in a line of `replay` (replay/line.rt).
fn hex_digits(n: u32) -> [u8; 8]
    ensures { result ≡ hexadecimal n }
{
    [
        hex_digit(n / 268435456),
        hex_digit(n / 16777216),
        hex_digit(n / 1048576),
        hex_digit(n / 65536),
        hex_digit(n / 4096),
        hex_digit(n / 256),
        hex_digit(n / 16),
        hex_digit(n),
    ]
}

// Writes a number in eight hexadecimal digits.
pub fn put_hexadecimal(n: u32, out: &mut [u8], at: usize) -> usize
    ensures value { result ≡ behind at (hexadecimal n) out.old }
    ensures out_after { out.new ≡ written_at at (hexadecimal n) out.old }
{
    put(&hex_digits(n), out, at)
}
