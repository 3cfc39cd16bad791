// How an answer is written.
use std::io;

// A number in so many hexadecimal digits, or with 0 in decimal. The form is no enum: it is a byte of the case, and every byte is one.
pub(crate) fn number(rt: &impl Print, form: u8, n: Option<u64>) -> io::Result<()> {
    match (n, form) {
        (None, _) => print!(rt; " none"),
        (Some(n), 0) => print!(rt; " {n}"),
        (Some(n), _) => {
            let width = form.min(16) as usize;
            print!(rt; " {n:0width$x}")
        }
    }
}

pub(crate) fn truth(rt: &impl Print, yes: bool) -> io::Result<()> {
    if yes {
        print!(rt; " yes")
    } else {
        print!(rt; " no")
    }
}

// Two digits a byte.
pub(crate) fn bytes(rt: &impl Print, s: &[u8]) -> io::Result<()> {
    print!(rt; " ")?;
    for byte in s {
        print!(rt; "{byte:02x}")?;
    }
    Ok(())
}
