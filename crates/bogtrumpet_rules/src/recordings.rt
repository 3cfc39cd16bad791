// Two recordings compared: the number (R4), 0 where nothing is refused, and what is answered. A field that does not apply is 0.
ghost use Rattle.std.specs.Prelude.{◌≡◌, length};
ghost use Rattle.comparing.specs.Compared.{compared_of, output_of};
ghost use Rattle.comparing.specs.Given.{more_number};
ghost use Rattle.bogtrumpet_rules.specs.Recordings.{plain_compared};

use comparing::{More, Report};
use refusals::Refusal;

// Which recording has more datagrams (0 neither, 1 the first, 2 the second), and the length of the report that was written.
#[repr(C)]
#[derive(Clone, Copy)]
pub struct Compared {
    pub number: u8,
    pub more: u8,
    pub length: usize,
}

fn more_number(more: More) -> u8
    ensures { result ≡ more_number more }
{
    more as u8
}

fn plain_compared(compared: Result<Report, Refusal>) -> Compared
    ensures { result ≡ plain_compared compared }
{
    match compared {
        Ok(report) => Compared {
            number: 0,
            more: more_number(report.more),
            length: report.length,
        },
        Err(refusal) => Compared {
            number: refusal.number(),
            more: 0,
            length: 0,
        },
    }
}

// Writes the report on two recordings to the front of out, refused by 31 and 15: comparing::compare.
#[unsafe(no_mangle)]
pub extern "C" fn bogtrumpet_compare(
    masked: bool,
    first: &[u8],
    second: &[u8],
    out: &mut [u8],
) -> Compared
    ensures value { result ≡ plain_compared (compared_of masked first.now second.now (length out.old)) }
    ensures out_after { out.new ≡ output_of masked first.now second.now out.old }
{
    plain_compared(comparing::compare(masked, first, second, out))
}
