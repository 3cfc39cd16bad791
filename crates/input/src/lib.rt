// The program's input: sections of locators, prefixes, routers and datagrams, each after its two-byte count.
#![tactic(auto)]

pub mod recording;
pub mod section;

ghost use Rattle.std.specs.Prelude.{◌≡◌};
ghost use Rattle.input.specs.Input.{behind_settings, are_sections_whole, settings_of, is_well_formed};

use settings::Settings;

// The most bytes that the program takes.
pub const LIMIT: usize = 65536;

// What stands behind the sections of locators, prefixes and routers: the program's section of datagrams.
pub fn behind_settings(s: &[u8]) -> &[u8]
    ensures { result.now ≡ behind_settings s.now }
{
    let prefixes = section::behind(s, section::LOCATOR);
    let routers = section::behind(prefixes, section::PREFIX);
    section::behind(routers, section::ROUTER)
}

// Whether the sections of locators, prefixes and routers have all their bytes.
pub fn sections_whole(s: &[u8]) -> bool
    ensures { result ≡ are_sections_whole s.now }
{
    let prefixes = section::behind(s, section::LOCATOR);
    let routers = section::behind(prefixes, section::PREFIX);
    section::whole(s, section::LOCATOR)
        & section::whole(prefixes, section::PREFIX)
        & section::whole(routers, section::ROUTER)
}

// The settings with these locators, prefixes and routers, and defaults for the rest.
pub fn settings(s: &[u8]) -> Settings
    ensures { result ≡ settings_of s.now }
{
    let prefixes = section::behind(s, section::LOCATOR);
    let routers = section::behind(prefixes, section::PREFIX);
    Settings::new(
        section::locators(s),
        section::count(s),
        section::prefixes(prefixes),
        section::count(prefixes),
        section::routers(routers),
        section::count(routers),
    )
}

// Whether the input is short enough, has all its sections and nothing behind them.
pub fn well_formed(s: &[u8]) -> bool
    ensures { result ≡ is_well_formed s.now }
{
    (s.len() <= LIMIT) & sections_whole(s) & recording::well_formed(behind_settings(s))
}
