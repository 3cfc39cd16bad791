// Locators.
ghost use Rattle.std.specs.Prelude.{◌≡◌, ◌%◌, ◌/◌, take, drop};
ghost use Rattle.lists.specs.Any.{any_of, twice};
ghost use Rattle.settings.specs.Locators.{is_at, is_locator, same_locator, locator_found};

#[repr(C)]
#[derive(Clone, Copy)]
pub struct Locator {
    pub address: u32,
    pub interface: u8,
}

// The address of the locator of that number.
pub fn locator_address(all: [Locator; 8], count: usize, number: usize) -> Option<u32>
    ensures { result ≡ locator_found all count number }
{
    all[..count.min(8)].get(number).map(|l| l.address)
}

// Whether one of the first `count` locators has the address. By index: an iterator over an array by value has it copied first, nine
// instructions of a call.
pub fn has_address(all: [Locator; 8], count: usize, a: u32) -> bool
    ensures { result ≡ any_of (is_at a) (take count all) }
{
    for i in 0..count.min(8) {
        let l = all[i];
        if l.address == a {
            return true;
        }
    }
    false
}

// An address and an interface as one number, which differs where one of them does. No derived equality: it makes two tests, as below.
fn pair(a: u32, interface: u8) -> u64
    ensures { (result % 4294967296 ≡ a) × (result / 4294967296 ≡ interface) }
{
    u64::from(interface) * 4294967296 + u64::from(a)
}

// Whether one of the first `count` locators, from `from` on, has the address on the interface. Both are compared at once: two tests would be
// two branches, before which a compiler reads all eight locators. By index, as above.
pub fn has_locator(all: [Locator; 8], from: usize, count: usize, a: u32, interface: u8) -> bool
    ensures { result ≡ any_of (is_locator a interface) (drop from (take count all)) }
{
    let sought = pair(a, interface);
    for i in from..count.min(8) {
        let l = all[i];
        if pair(l.address, l.interface) == sought {
            return true;
        }
    }
    false
}

// Whether a pair of address and interface stands twice among the first `count` locators. Not one with `routers::distinct`, which compares
// addresses alone and has `are_distinct` where this has `twice`.
pub fn repeated(all: [Locator; 8], count: usize) -> bool
    ensures { result ≡ twice same_locator (take count all) }
{
    all.iter().take(count).enumerate().any(|(i, l)| has_locator(
        all,
        i + 1,
        count,
        l.address,
        l.interface,
    ))
}
