// The path size in force, of a path table whose rows are lent, for a service, the size of whose link is handed.
ghost use Rattle.std.specs.Prelude.{◌≡◌, max};
ghost use Rattle.address.specs.Address.{last_quad};
ghost use Rattle.paths.specs.Kept.{in_force};
ghost use Rattle.paths.specs.Table.{kept_among};
ghost use Rattle.bogtrumpet.specs.Plain.{bytes_of};
ghost use Rattle.bogtrumpet.specs.Steps.{sized_step};

use super::answers::Sized;
use super::{Address, answers, numbered, plain};
use paths::LentRows;
use refusals::Refusal;

// Toward a neighbour, at the latest time: paths::LentRows::size_toward.
#[tactic(auto, unfolding(crate::specs::Steps::sized_step))]
pub fn size_in_force(
    link: u16,
    both: u8,
    rows: LentRows<'_>,
    latest: u32,
    service: u8,
    neighbour: u32,
) -> Sized
    ensures { result ≡ sized_step both service (in_force link (kept_among rows.entry.neighbours.now rows.entry.sizes.now rows.entry.times.now rows.entry.count neighbour latest)) }
{
    let size = rows.size_toward(link, neighbour, latest);
    if numbered::there(both, service) {
        answers::plain_sized(Ok(size))
    } else {
        answers::plain_sized(Err(Refusal::NoLocator))
    }
}

// Toward the tunnel end of a next hop, at the later of the latest time and this one.
pub fn size_toward(link: u16, rows: LentRows<'_>, latest: u32, next_hop: Address, time: u32) -> u16
    ensures { result ≡ in_force link (kept_among rows.entry.neighbours.now rows.entry.sizes.now rows.entry.times.now rows.entry.count (last_quad (bytes_of next_hop)) (max latest time)) }
{
    let tunnel_end = address::last_quad(plain::bytes(next_hop));
    let later = latest.max(time);
    rows.size_toward(link, tunnel_end, later)
}
