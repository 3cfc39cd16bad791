// The size that a report asks for.
ghost use Rattle.std.specs.Prelude.{◌≡◌};
ghost use Rattle.paths.specs.Candidate.{plateau_below, candidate_of, is_below};

// The least size that is usable.
const LEAST_SIZE: u16 = 68;

// RFC 1191, section 7.
const PLATEAUS: [u16; 11] = [
    65535, 32000, 17914, 8166, 4352, 2002, 1492, 1006, 508, 296, LEAST_SIZE,
];

// The largest plateau below n.
fn plateau_below(n: u16) -> Option<u16>
    ensures { result ≡ plateau_below n }
{
    PLATEAUS.iter().copied().find(|plateau| *plateau < n)
}

// The reported size, or for 0 the largest plateau below the quoted total length.
#[tactic(auto, unfolding(crate::specs::Candidate::candidate_of))]
pub fn candidate(reported: u16, total: u16) -> Option<u16>
    ensures { result ≡ candidate_of reported total }
{
    if reported == 0 {
        return plateau_below(total);
    }
    (LEAST_SIZE <= reported).then_some(reported)
}

// Whether a candidate is accepted at a size in force.
pub fn is_below(candidate: u16, in_force: u16) -> bool
    ensures { result ≡ is_below candidate in_force }
{
    candidate < in_force
}
