// Which units of eight bytes of a datagram's payload are held: a bit for each.
#![tactic(auto)]

ghost use Rattle.std.specs.Prelude.{◌≡◌, ◌-◌, ◌%◌, ◌^◌, min};
ghost use Rattle.std.specs.Int.Bits.{bit_or};
ghost use Rattle.units.specs.Held.{none_held, range_of, meets, covers, united};

// How many units a datagram's payload has at most.
pub const UNITS: usize = 256;

// How many units a word has.
const WORD: usize = 64;

// Unit u is bit u % 64 of word u / 64. The functions write the four words out: a closure for each is no shorter, and so no test has a branch.
#[repr(C)]
#[derive(Clone, Copy)]
pub struct Held {
    pub words: [u64; 4],
}

impl Held {
    // No unit is held.
    pub fn none() -> Held
        ensures { result ≡ none_held }
    {
        Held { words: [0; 4] }
    }

    // The first n units, as far as there are any.
    pub fn first(n: usize) -> Held
        ensures { result ≡ range_of 0 n }
    {
        Held {
            words: [
                ones(n),
                ones(n.saturating_sub(64)),
                ones(n.saturating_sub(128)),
                ones(n.saturating_sub(192)),
            ],
        }
    }

    // The `count` units from `from` on, as far as there are any: those up to their end without those before them.
    pub fn range(from: usize, count: usize) -> Held
        ensures { result ≡ range_of from count }
    {
        let end = from.min(UNITS) + count.min(UNITS);
        let a = Held::first(end).words;
        let b = Held::first(from).words;
        Held {
            words: [a[0] - b[0], a[1] - b[1], a[2] - b[2], a[3] - b[3]],
        }
    }

    // Whether some of those units is held.
    pub fn any(self, of: Held) -> bool
        ensures { result ≡ meets self of }
    {
        let w = self.words;
        let m = of.words;
        ((w[0] & m[0]) | (w[1] & m[1]) | (w[2] & m[2]) | (w[3] & m[3])) != 0
    }

    // Whether all of them are.
    #[tactic(auto, unfolding(crate::specs::Held::covers))]
    pub fn all(self, of: Held) -> bool
        ensures { result ≡ covers self of }
    {
        let w = self.words;
        let m = of.words;
        (w[0] & m[0] == m[0])
            & (w[1] & m[1] == m[1])
            & (w[2] & m[2] == m[2])
            & (w[3] & m[3] == m[3])
    }

    // Those that are held, and besides them those.
    #[tactic(auto, unfolding(crate::specs::Held::united))]
    pub fn with(self, of: Held) -> Held
        ensures { result ≡ united self of }
    {
        let w = self.words;
        let m = of.words;
        Held {
            words: [
                both(w[0], m[0]),
                both(w[1], m[1]),
                both(w[2], m[2]),
                both(w[3], m[3]),
            ],
        }
    }
}

// The bits of the one word and the other. It is a function since a proof knows of an argument, and not of an element, that it has 64 bits.
fn both(a: u64, b: u64) -> u64
    ensures { result ≡ bit_or a b % 2 ^ 64 }
{
    a | b
}

// The lowest n bits of a word, as far as there are any.
fn ones(n: usize) -> u64
    ensures { result ≡ 2 ^ min n 64 - 1 }
{
    if n < WORD { (1 << n) - 1 } else { u64::MAX }
}
