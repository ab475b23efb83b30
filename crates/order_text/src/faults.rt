// Why a line is refused.
use std::error::Error;
use std::fmt;

#[derive(Clone, Copy, PartialEq, Eq, Debug)]
pub enum Fault {
    // the first word is none of `close`, `buy` and `sell`
    UnknownWord,
    WordMissing,
    WordTooMany,
    // the shares are no number from 1 to 30,000,000
    BadShares,
    // the price is no number, nor `at-auction` in an order
    BadPrice,
    PriceNotLegal,
    // a second line gives a closing price
    SecondClose,
    // more than 512 orders
    TooManyOrders,
}

impl Fault {
    ghost use Rattle.std.specs.Prelude.{◌≡◌};
    ghost use Rattle.order_text.specs.FaultText.{fault_text};

    // What is wrong with the line. `Display` writes it, and may fail; this does not.
    fn message(self) -> &'static str
        ensures { result.now ≡ fault_text self }
    {
        match self {
            Fault::UnknownWord => "the first word is not close, buy or sell",
            Fault::WordMissing => "a word is missing",
            Fault::WordTooMany => "there is a word too many",
            Fault::BadShares => "the shares are not a number from 1 to 30000000",
            Fault::BadPrice =>
                "the price is not a number of at most eight digits (an order may also say at-auction)",
            Fault::PriceNotLegal => "the price is not a legal price",
            Fault::SecondClose => "there is a closing price already",
            Fault::TooManyOrders => "there are 512 orders already",
        }
    }
}

impl fmt::Display for Fault {
    ghost use Rattle.std.specs.Prelude.{Some};
    ghost use Rattle.order_text.specs.FaultText.{fault_text};

    ghost output = { λ fault. Some (fault_text fault) };

    fn fmt<W: fmt::Write>(&self, f: &mut fmt::Formatter<W>) -> fmt::Result {
        f.write_str(self.message())
    }
}

impl Error for Fault {}

// A line that is refused. Lines count from 1.
#[derive(Clone, Copy, PartialEq, Eq, Debug)]
pub struct BadLine {
    pub line: usize,
    pub fault: Fault,
}

impl fmt::Display for BadLine {
    ghost use Rattle.std.specs.Prelude.{Some};
    ghost use Rattle.order_text.specs.FaultText.{bad_line_text};

    ghost output = { λ bad. Some (bad_line_text bad) };

    // The message for the line, with the newline that ends it.
    fn fmt<W: fmt::Write>(&self, f: &mut fmt::Formatter<W>) -> fmt::Result {
        let line = self.line;
        let message = self.fault.message();
        writeln!(f, "line {line}: {message}")
    }
}

impl Error for BadLine {}
