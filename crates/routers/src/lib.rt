// The router list: which addresses are listed, which router is asked next, and when each is due again.
// Every list is taken: what counts are the first `count` of its 16 places. A search runs over lent rows; a list by value lends its own.
// The rows go as slices with the count beside them: lent so, an asking copies nothing, and the count may be above the places (docs/DECISIONS.md).
#![tactic(auto)]

ghost use Rattle.std.specs.Prelude.{◌≡◌, cond, take, drop};
ghost use Rattle.routers.specs.Routers.{held_in, live, listed, earlier_of, if_due, next_of, due_or, dues_after, rescheduled_of, replaced_of, new_of, among, are_distinct};

// How many routers a list has room for.
pub const PLACES: usize = 16;

// A router and its due time: an exact second, which may lie past the last one of 32 bits.
#[derive(Clone, Copy)]
pub struct Router {
    pub address: u32,
    pub due: u64,
}

// Place by place the address of a router and its due time. Arrays side by side, with a count: the layout is the C interface's.
#[repr(C)]
#[derive(Clone, Copy)]
pub struct RouterList {
    pub addresses: [u32; PLACES],
    pub dues: [u64; PLACES],
    pub count: usize,
}

impl Router {
    // The router, if its due time is not in the future.
    fn if_due(self, now: u32) -> Option<u32>
        ensures { result ≡ if_due now self }
    {
        (self.due <= u64::from(now)).then_some(self.address)
    }
}

// Of two routers the one that is due earlier, the first on a tie. With `min_by_key` in its place the proof did not close.
fn earlier_of_two(first: Router, second: Router) -> Router
    ensures { result ≡ earlier_of first second }
{
    if second.due < first.due {
        second
    } else {
        first
    }
}

// Whether an address is among the first `count`. By index, here and below: where an iterator goes over rows that were handed over by value, the
// compiler has them copied first, and a new router list takes 1.4 times the instructions.
pub fn lists_among(addresses: &[u32], count: usize, address: u32) -> bool
    ensures { result ≡ among address (take count addresses.now) }
{
    for i in 0..count.min(addresses.len()) {
        if addresses[i] == address {
            return true;
        }
    }
    false
}

// Of the routers of the first `count` places the one with the earliest due time that is not in the future, lowest place on a tie.
pub fn next_among<'a>(addresses: &'a [u32], dues: &'a [u64], count: usize, time: u32) -> Option<u32>
    ensures { result ≡ next_of time (held_in addresses.now dues.now count) }
{
    addresses
        .iter()
        .zip(dues)
        .take(count)
        .map(|(address, due)| Router {
            address: *address,
            due: *due,
        })
        .reduce(earlier_of_two)?
        .if_due(time)
}

// Of the routers of the first `count` places the due time of the one of that address, and `other` if there is none: a parameter and no
// Option, as `due_or` has it.
fn due_among<'a>(
    addresses: &'a [u32],
    dues: &'a [u64],
    count: usize,
    address: u32,
    other: u64,
) -> u64
    ensures { result ≡ due_or other address (held_in addresses.now dues.now count) }
{
    for i in 0..count.min(addresses.len()).min(dues.len()) {
        if addresses[i] == address {
            return dues[i];
        }
    }
    other
}

// A due time where the addresses are the same, else another.
fn due_if(same: bool, due: u64, other: u64) -> u64
    ensures { result ≡ cond same due other }
{
    if same { due } else { other }
}

// The due times once the router of that address is due at `due`. By index: over `dues.iter_mut().zip(..)` the proof did not close.
fn dues_after(
    addresses: [u32; PLACES],
    mut dues: [u64; PLACES],
    address: u32,
    due: u64,
) -> [u64; PLACES]
    ensures { result ≡ dues_after address due addresses dues }
{
    let old = dues;
    for i in 0..PLACES {
        dues[i] = due_if(addresses[i] == address, due, old[i]);
    }
    dues
}

impl RouterList {
    // At setup every router is due at time 0.
    pub fn new(addresses: [u32; PLACES], count: usize) -> Self
        ensures { result ≡ new_of addresses count }
    {
        RouterList {
            addresses,
            dues: [0; PLACES],
            count,
        }
    }

    // Whether a router of that address is in the list. Where there is none, the addresses are not copied to be searched.
    pub fn lists(self, address: u32) -> bool
        ensures { result ≡ listed address (live self) }
    {
        if self.count == 0 {
            return false;
        }
        let addresses = self.addresses;
        lists_among(&addresses, self.count, address)
    }

    // The router with the earliest due time that is not in the future, lowest place on a tie.
    pub fn next(self, now: u32) -> Option<u32>
        ensures { result ≡ next_of now (live self) }
    {
        let addresses = self.addresses;
        let dues = self.dues;
        next_among(&addresses, &dues, self.count, now)
    }

    // The router of that address is due at `due`.
    pub fn rescheduled(mut self, address: u32, due: u64) -> Self
        ensures { result ≡ rescheduled_of address due self }
    {
        let addresses = self.addresses;
        let dues = self.dues;
        let next = dues_after(addresses, dues, address, due);
        self.dues = next;
        self
    }

    // A new list: a router in both lists keeps its due time, a new one is due now.
    pub fn replaced(mut self, addresses: [u32; PLACES], count: usize, now: u32) -> Self
        ensures { result ≡ replaced_of addresses count now self }
    {
        let old = self.addresses;
        let dues = self.dues;
        let old_count = self.count;
        for i in 0..PLACES {
            self.dues[i] = due_among(&old, &dues, old_count, addresses[i], u64::from(now));
        }
        self.addresses = addresses;
        self.count = count;
        self
    }
}

// Whether the address stands at a place from `from` on, among the first `count`.
fn stands(addresses: [u32; PLACES], from: usize, count: usize, address: u32) -> bool
    ensures { result ≡ among address (drop from (take count addresses)) }
{
    let mut found = false;
    for i in from..count.min(PLACES) {
        found = found | (addresses[i] == address);
    }
    found
}

// Whether no two of the first `count` addresses are the same. Not one with `settings::locators::repeated`: `are_distinct` and `twice` are two
// definitions, and there two fields are compared as one number.
pub fn distinct(addresses: [u32; PLACES], count: usize) -> bool
    ensures { result ≡ are_distinct (take count addresses) }
{
    for i in 0..count.min(PLACES) {
        if stands(addresses, i + 1, count, addresses[i]) {
            return false;
        }
    }
    true
}
