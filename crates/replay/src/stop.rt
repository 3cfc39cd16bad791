// Why the program ends before it has an answer to each call.
use std::fmt;

#[derive(Clone, Copy, Debug, PartialEq, Eq)]
pub(crate) enum Stop {
    // No file could be made for the input.
    NoFile,
    // The file was given the number of a stream that is closed.
    Closed,
    // Standard input could not be read.
    Input,
    FileUnwritten,
    FileUnread,
    // Standard output could not be written.
    Output,
    // The input has not the format.
    BadInput,
}

impl fmt::Display for Stop {
    fn fmt<W: fmt::Write>(&self, f: &mut fmt::Formatter<W>) -> fmt::Result {
        f.write_str(match self {
            Stop::NoFile => "no file could be made in /tmp",
            Stop::Closed => "standard input or output is closed",
            Stop::Input => "standard input could not be read",
            Stop::FileUnwritten => "the file in /tmp could not be written",
            Stop::FileUnread => "the file in /tmp could not be read",
            Stop::Output => "standard output could not be written",
            Stop::BadInput => "bad input",
        })
    }
}
