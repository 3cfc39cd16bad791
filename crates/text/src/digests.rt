// The digest of bytes, which the programs print of an output: the 32-bit FNV-1a hash.
ghost use Rattle.std.specs.Prelude.{◌≡◌};
ghost use Rattle.text.specs.Digest.{mixed, digest_of};

const OFFSET_BASIS: u32 = 2166136261;

const PRIME: u32 = 16777619;

pub fn digest(bytes: &[u8]) -> u32
    ensures { result ≡ digest_of bytes.now }
{
    bytes
        .iter()
        .fold(OFFSET_BASIS, |hash, byte| mix(hash, *byte))
}

// The hash with one byte more.
fn mix(hash: u32, byte: u8) -> u32
    ensures { result ≡ mixed hash byte }
{
    (hash ^ byte as u32).wrapping_mul(PRIME)
}
