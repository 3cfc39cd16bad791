// The numbers given back: each refusal of R4 by name.
#![tactic(auto)]

ghost use Rattle.std.specs.Prelude.{◌≡◌, ℕ};
ghost use Rattle.refusals.specs.Given.{number_in};
ghost use Rattle.refusals.specs.Refusals.{number_of};

// Number 14, Too Big, carries values and stands in the answer of sending.
#[derive(Clone, Copy, Debug, PartialEq, Eq)]
pub enum Refusal {
    Settings = 1,
    OuterMalformed = 2,
    OuterChecksum = 3,
    OtherProtocol = 4,
    Piece = 5,
    NotForUs = 6,
    OuterSourceForbidden = 7,
    InnerMalformed = 8,
    InnerSourceBad = 9,
    OuterSourceWrong = 10,
    NoLocator = 11,
    NextHopNotIsatap = 12,
    TunnelEndForbidden = 13,
    OutputShort = 15,
    ReportMalformed = 16,
    QuoteNotOurs = 17,
    SizeUnusable = 18,
    SizeNotBelow = 19,
    AdvertisementInvalid = 20,
    AdvertiserNotListed = 21,
    NoRouterDue = 22,
    WrappedTooLong = 23,
    SolicitationInvalid = 24,
    AskerNotIsatap = 25,
    OptionsBad = 26,
    PieceWaits = 27,
    NoPlace = 28,
    PiecesDisagree = 29,
    PieceUnfit = 30,
    RecordingMalformed = 31,
}

impl Refusal {
    // The number (R4).
    pub fn number(self) -> u8
        ensures { result ≡ number_of self }
    {
        self as u8
    }
}

// The number of an answer (R4), 0 where the call is not refused.
pub fn number<T: Drop>(answer: Result<T, Refusal>) -> u8
    ensures { result ≡ number_in answer }
{
    match answer {
        Ok(_) => 0,
        Err(refusal) => refusal.number(),
    }
}

// The same as a method of each answer that is a Result.
pub trait Numbered {
    ghost given: { Self → ℕ };

    fn number(self) -> u8
        ensures { result ≡ given self };
}

impl<T: Drop> Numbered for Result<T, Refusal> {
    ghost given = { number_in };

    fn number(self) -> u8 {
        crate::number(self)
    }
}
