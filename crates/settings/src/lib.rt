// The settings of a tunnel end, their defaults and their rules.
#![tactic(auto)]

pub mod locators;

ghost use Rattle.std.specs.Prelude.{◌≡◌, take};
ghost use Rattle.lists.specs.Any.{any_of};
ghost use Rattle.settings.specs.Settings.{defaults_for, locator_of, forbidden_to, is_ours, is_our_locator, is_bad_end, are_locators_right, are_numbers_right, are_routers_right, is_accepted, is_forbidden_locator, share_address, are_pair_accepted};

use locators::Locator;

// Laid out as in C, as all that a node holds is.
#[repr(C)]
#[derive(Clone, Copy)]
pub struct Settings {
    pub locators: [Locator; 8],
    pub locator_count: usize,
    // Eight prefixes of eight bytes, one behind the other.
    pub prefixes: [u8; 64],
    pub prefix_count: usize,
    pub routers: [u32; 16],
    pub router_count: usize,
    pub link_size: u16,
    pub ttl: u8,
    pub interval: u16,
    // The first identification.
    pub identification: u16,
    // The reporting address.
    pub reporting: [u8; 16],
}

impl Settings {
    pub const LINK_SIZE: u16 = 1500;

    pub const TTL: u8 = 64;

    pub const INTERVAL: u16 = 120;

    pub const IDENTIFICATION: u16 = 1;

    // The settings with these locators, prefixes and routers, and defaults for the rest: the reporting address is the
    // link-local address of locator 0. Six parameters, not a struct of them: the constructor takes what has no default (R21.6).
    pub fn new(
        locators: [Locator; 8],
        locator_count: usize,
        prefixes: [u8; 64],
        prefix_count: usize,
        routers: [u32; 16],
        router_count: usize,
    ) -> Self
        ensures { result ≡ defaults_for locators locator_count prefixes prefix_count routers router_count }
    {
        let first = locators[0];
        let reporting = address::link_local(first.address);
        Settings {
            locators,
            locator_count,
            prefixes,
            prefix_count,
            routers,
            router_count,
            link_size: Settings::LINK_SIZE,
            ttl: Settings::TTL,
            interval: Settings::INTERVAL,
            identification: Settings::IDENTIFICATION,
            reporting,
        }
    }

    // The locator of that number.
    pub fn locator(self, number: usize) -> Option<u32>
        ensures { result ≡ locator_of self number }
    {
        let all = self.locators;
        locators::locator_address(all, self.locator_count, number)
    }

    // Whether no locator or router of these settings, no outer source and no tunnel end may have the address.
    pub fn forbidden_to(self, a: u32) -> bool
        ensures { result ≡ forbidden_to self a }
    {
        address::forbidden(a)
    }

    // Whether the address is a locator's.
    pub fn ours(self, a: u32) -> bool
        ensures { result ≡ is_ours self a }
    {
        let all = self.locators;
        locators::has_address(all, self.locator_count, a)
    }

    // Whether a locator has that address on that interface.
    pub fn our_locator(self, a: u32, interface: u8) -> bool
        ensures { result ≡ is_our_locator self a interface }
    {
        let all = self.locators;
        locators::has_locator(all, 0, self.locator_count, a, interface)
    }

    // Whether the address can be no tunnel end and no router: forbidden, or our own. What is forbidden is not looked for among the locators.
    pub fn bad_end(self, a: u32) -> bool
        ensures { result ≡ is_bad_end self a }
    {
        if self.forbidden_to(a) {
            return true;
        }
        self.ours(a)
    }

    fn some_locator_forbidden(self) -> bool
        ensures { result ≡ any_of (is_forbidden_locator self) (take self.locator_count self.locators) }
    {
        self.locators
            .iter()
            .take(self.locator_count)
            .any(|l| self.forbidden_to(l.address))
    }

    fn locators_right(self) -> bool
        ensures { result ≡ are_locators_right self }
    {
        let all = self.locators;
        let count = self.locator_count;
        (1 <= count)
            & (count <= 8)
            & !locators::repeated(all, count)
            & !self.some_locator_forbidden()
    }

    fn some_router_bad(self, routers: [u32; 16], count: usize) -> bool
        ensures { result ≡ any_of (is_bad_end self) (take count routers) }
    {
        for i in 0..count.min(16) {
            if self.bad_end(routers[i]) {
                return true;
            }
        }
        false
    }

    // Whether a router list keeps the rules. An array and a count, as C has them: a count above 16 is no slice, and is refused by 1.
    pub fn routers_right(self, routers: [u32; 16], count: usize) -> bool
        ensures { result ≡ are_routers_right self routers count }
    {
        (count <= 16) & routers::distinct(routers, count) & !self.some_router_bad(routers, count)
    }

    fn numbers_right(self) -> bool
        ensures { result ≡ are_numbers_right self }
    {
        (self.prefix_count <= 8)
            & (576 <= self.link_size)
            & (self.link_size <= 9216)
            & (1 <= self.ttl)
            & (1 <= self.interval)
            & (self.interval <= 3600)
    }

    // Whether a locator of the one has the address of a locator of the other, on whatever interfaces.
    fn shares_address(self, other: Settings) -> bool
        ensures { result ≡ share_address self other }
    {
        self.locators
            .iter()
            .take(self.locator_count)
            .any(|l| other.ours(l.address))
    }

    // Whether the settings keep the rules.
    pub fn accepted(self) -> bool
        ensures { result ≡ is_accepted self }
    {
        let routers = self.routers;
        let reporting = self.reporting;
        self.locators_right()
            & self.routers_right(routers, self.router_count)
            & self.numbers_right()
            & !address::multicast_or_unspecified(reporting)
    }

    // Whether the settings of two services of one node keep the rules.
    pub fn accepted_with(self, other: Settings) -> bool
        ensures { result ≡ are_pair_accepted self other }
    {
        self.accepted() & other.accepted() & !self.shares_address(other)
    }
}
