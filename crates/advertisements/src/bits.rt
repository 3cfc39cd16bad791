// Flags, and the first bits of a prefix.
ghost use Rattle.std.specs.Prelude.{◌≡◌, ◌-◌, ◌*◌, ◌/◌, ◌^◌};
ghost use Rattle.advertisements.specs.Bits.{flag_bits, first_bits_of};

use lent::write_at;

// A byte whose first bit and second bit are flags, and the others 0.
pub fn flags(first: bool, second: bool) -> u8
    ensures { result ≡ flag_bits first second }
{
    0x80 * u8::from(first) + 0x40 * u8::from(second)
}

// The first n bits of a number, the others 0: these are shifted out, and zeros in. A shift is by less than 64, so n = 0 is a case of its own.
fn first_bits(n: usize, x: u64) -> u64
    ensures { result ≡ x / 2 ^ (64 - n) * 2 ^ (64 - n) }
{
    let others = (64 - n.min(64)) % 64;
    let kept = x >> others << others;
    if n == 0 { 0 } else { kept }
}

// The first n bits of eight bytes, the others 0.
fn half(n: usize, bytes: [u8; 8]) -> [u8; 8]
    ensures { result ≡ first_bits_of n bytes }
{
    first_bits(n, u64::from_be_bytes(bytes)).to_be_bytes()
}

// The first n bits of a prefix, the others 0. Eight bytes are read, cut and written at a time, as one number.
pub fn first_bits_of(n: u8, prefix: [u8; 16]) -> [u8; 16]
    ensures { result ≡ first_bits_of n prefix }
{
    let p = prefix;
    let bits = n as usize;
    let high = half(bits, [p[0], p[1], p[2], p[3], p[4], p[5], p[6], p[7]]);
    let low = half(
        bits.saturating_sub(64),
        [p[8], p[9], p[10], p[11], p[12], p[13], p[14], p[15]],
    );
    let mut bytes = [0; 16];
    write_at(&high, &mut bytes, 0);
    write_at(&low, &mut bytes, 8);
    bytes
}
