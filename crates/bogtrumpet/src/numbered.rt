// A service by its number, as C names it: 0 is the first, 1 the second.
ghost use Rattle.std.specs.Prelude.{◌≡◌};
ghost use Rattle.bogtrumpet.specs.Numbered.{is_there};

// Whether a node of this `both` has it. Every node has the first, for which nothing else is asked.
pub fn there(both: u8, service: u8) -> bool
    ensures { result ≡ is_there both service }
{
    if service == 0 {
        return true;
    }
    (service == 1) & (0 < both)
}

// The same by one comparison, for a sending and an answer to a solicitation. Where much of the service is read behind it, as there, a second way to
// get to it would have the compiler read that before; a hearing has two instructions more with one way (docs/PERFORMANCE.md).
pub fn there_by_most(both: u8, service: u8) -> bool
    ensures { result ≡ is_there both service }
{
    let most: u8 = if 0 < both { 1 } else { 0 };
    service <= most
}
