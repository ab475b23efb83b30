// Why a line is refused.
use std::error::Error;
use std::fmt;

#[derive(Clone, Copy, PartialEq, Eq, Debug)]
pub enum CallFault {
    // the first word is none of `put`, `replace` and `cut`
    UnknownWord,
    WordMissing,
    WordTooMany,
    // an entry number, a broker or the shares are no number
    BadNumber,
    // the side is neither `buy` nor `sell`
    BadSide,
    // the price is no number, nor `at-auction` in a put
    BadPrice,
}

impl CallFault {
    ghost use Rattle.std.specs.Prelude.{◌≡◌};
    ghost use Rattle.book_calls.specs.FaultText.{fault_text};

    // What is wrong with the line. `Display` writes it, and may fail; this does not.
    pub fn message(self) -> &'static str
        ensures { result.now ≡ fault_text self }
    {
        match self {
            CallFault::UnknownWord => "the first word is not put, replace or cut",
            CallFault::WordMissing => "a word is missing",
            CallFault::WordTooMany => "there is a word too many",
            CallFault::BadNumber => "a word is not a number of at most eight digits",
            CallFault::BadSide => "the side is not buy or sell",
            CallFault::BadPrice =>
                "the price is not a number of at most eight digits (a put may also say at-auction)",
        }
    }
}

impl fmt::Display for CallFault {
    ghost use Rattle.std.specs.Prelude.{Some};
    ghost use Rattle.book_calls.specs.FaultText.{fault_text};

    ghost output = { λ fault. Some (fault_text fault) };

    fn fmt<W: fmt::Write>(&self, f: &mut fmt::Formatter<W>) -> fmt::Result {
        f.write_str(self.message())
    }
}

impl Error for CallFault {}
