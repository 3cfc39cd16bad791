// Prefixes as the on-link test takes them.
ghost use Rattle.std.specs.Prelude.{◌≡◌, ◌<◌};
ghost use Rattle.address.specs.Prefixes.{row_at, rows_of};

fn row(flat: [u8; 64], k: usize) -> [u8; 8]
    requires { k < 57 }
    ensures { result ≡ row_at flat k }
{
    [
        flat[k],
        flat[k + 1],
        flat[k + 2],
        flat[k + 3],
        flat[k + 4],
        flat[k + 5],
        flat[k + 6],
        flat[k + 7],
    ]
}

// The 64 bytes as eight prefixes of eight, written out: so no more rows are made than are asked for.
pub fn rows(flat: [u8; 64]) -> [[u8; 8]; 8]
    ensures { result ≡ rows_of flat }
{
    [
        row(flat, 0),
        row(flat, 8),
        row(flat, 16),
        row(flat, 24),
        row(flat, 32),
        row(flat, 40),
        row(flat, 48),
        row(flat, 56),
    ]
}
