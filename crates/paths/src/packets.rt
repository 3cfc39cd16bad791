// What a path of a given size lets through: the rules of sending that go by the path size.
ghost use Rattle.std.specs.Prelude.{◌≡◌, ◌-◌};
ghost use Rattle.header.specs.Numbers.{outer_header};
ghost use Rattle.paths.specs.Packets.{largest_packet, dont_fragment};

// The least packet size that every IPv6 path takes.
const LEAST_MTU: u16 = 1280;

// In the width of a path size.
const OUTER_HEADER: u16 = header::OUTER_HEADER as u16;

fn without_header(path: u16) -> u16
    ensures { result ≡ path - outer_header }
{
    path.saturating_sub(OUTER_HEADER)
}

// M: the largest packet that is wrapped.
#[tactic(auto, unfolding(crate::specs::Packets::largest_packet))]
pub fn largest_packet(path: u16) -> u16
    ensures { result ≡ largest_packet path }
{
    without_header(path).max(LEAST_MTU)
}

// Whether the outer header says "don't fragment".
pub fn dont_fragment(path: u16) -> bool
    ensures { result ≡ dont_fragment path }
{
    LEAST_MTU < without_header(path)
}
