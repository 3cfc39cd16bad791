// What stands for a number in the input: the kinds of calls, and the services.
use crate::stop::Stop;
use node::ServiceName;

#[derive(Clone, Copy, Debug, PartialEq, Eq)]
pub(crate) enum Kind {
    Receive,
    Send,
    // The one that names no service.
    Report,
    Routers,
    Ask,
    Advertisement,
    Size,
    // The one that answers a solicitation.
    Advertise,
    WholeMemory,
    Part,
}

impl TryFrom<u8> for Kind {
    type Error = Stop;

    fn try_from(number: u8) -> Result<Self, Stop> {
        match number {
            1 => Ok(Kind::Receive),
            2 => Ok(Kind::Send),
            3 => Ok(Kind::Report),
            4 => Ok(Kind::Routers),
            5 => Ok(Kind::Ask),
            6 => Ok(Kind::Advertisement),
            7 => Ok(Kind::Size),
            8 => Ok(Kind::Advertise),
            9 => Ok(Kind::WholeMemory),
            10 => Ok(Kind::Part),
            _ => Err(Stop::BadInput),
        }
    }
}

// The service of that number. `TryFrom` for it would be `node`'s, which knows of no input.
pub(crate) fn service(number: u8) -> Result<ServiceName, Stop> {
    match number {
        0 => Ok(ServiceName::First),
        1 => Ok(ServiceName::Second),
        _ => Err(Stop::BadInput),
    }
}
