// Orders and a closing price, read from a text.
ghost use Rattle.order_text.specs.Asking.{with_saying, at_line, with_line, read_text, asked, Gives};
ghost use Rattle.order_text.specs.Listing.{ReadsBack};

use super::{Saying, line_says};
use crate::faults::{BadLine, Fault};
use ladder::Ladder;
use order::{MOST_ORDERS, Order};
use std::alloc::{AllocError, Global};
use std::error::Error;
use std::fmt;
use words::{Lines, Words, uncommented};

// What a text asks for: its orders, in their order, and the closing price if it gives one.
#[derive(Drop)]
pub struct Request {
    pub orders: Vec<Order>,
    pub close: Option<u32>,
}

#[derive(Clone, Copy, PartialEq, Eq, Debug)]
pub enum ReadError {
    Bad(BadLine),
    NoMemory,
}

impl fmt::Display for ReadError {
    ghost use Rattle.std.specs.Prelude.{Some};
    ghost use Rattle.order_text.specs.ReadErrorText.{read_error_text};

    ghost output = { λ e. Some (read_error_text e) };

    fn fmt<W: fmt::Write>(&self, f: &mut fmt::Formatter<W>) -> fmt::Result {
        match self {
            ReadError::Bad(bad) => fmt::Display::fmt(bad, f),
            ReadError::NoMemory => f.write_str("there is not enough memory"),
        }
    }
}

impl Error for ReadError {}

impl From<BadLine> for ReadError {
    ghost use Rattle.std.specs.Prelude.{◌≡◌};
    ghost use Rattle.order_text.specs.declared.reading.ReadError.TheVariants.{Bad};

    ghost from_gives = { λ bad e. e ≡ Bad bad };

    fn from(bad: BadLine) -> ReadError {
        ReadError::Bad(bad)
    }
}

impl From<AllocError> for ReadError {
    ghost use Rattle.std.specs.Prelude.{◌≡◌};
    ghost use Rattle.order_text.specs.declared.reading.ReadError.TheVariants.{NoMemory};

    ghost from_gives = { λ _ e. e ≡ NoMemory };

    fn from(_refused: AllocError) -> ReadError {
        ReadError::NoMemory
    }
}

impl Request {
    // The request with what line `line` says.
    fn with(mut self, line: usize, saying: Saying) -> Result<Request, ReadError>
        ensures { Gives (at_line line (with_saying (asked self) saying)) result }
    {
        let bad = |fault| ReadError::Bad(BadLine { line, fault });
        match saying {
            Saying::Nothing => {}
            Saying::Close(price) => {
                if self.close.is_some() {
                    return Err(bad(Fault::SecondClose));
                }
                self.close = Some(price);
            }
            Saying::Trade(side, shares, kind) => {
                let count = self.orders.len();
                if count >= MOST_ORDERS {
                    return Err(bad(Fault::TooManyOrders));
                }
                let order = Order {
                    // `try_from` is no plainer: it asks for an error, and the count is proved to fit
                    number: count as u32 + 1,
                    broker: 1,
                    side,
                    kind,
                    shares,
                };
                self.orders.push(order).map_err(AllocError::from)?;
            }
        }
        Ok(self)
    }

    // The request with line `line` of the text.
    fn with_line<L: Ladder>(
        self,
        ladder: &L,
        line: usize,
        text: &[u8],
    ) -> Result<Request, ReadError>
        ensures { Gives (with_line (L.Ladder.prices ladder.now) line (asked self) text.now) result }
    {
        let saying = line_says(ladder, Words::new(uncommented(text))).map_err(|fault| BadLine {
            line,
            fault,
        })?;
        self.with(line, saying)
    }
}

// What a text asks for, or its first bad line. In a line the faults of its words come first, from
// left to right; then that the closing price is the second, or the order one too many.
pub fn read<L: Ladder>(heap: Global, ladder: &L, text: &[u8]) -> Result<Request, ReadError>
    ensures value { Gives (read_text (L.Ladder.prices ladder.now) text.now) result }
    ensures back { ReadsBack (L.Ladder.prices ladder.now) text.now result }
{
    let mut request = Request {
        orders: Vec::new(heap),
        close: None,
    };
    for (i, line) in Lines::new(text).enumerate() {
        request = request.with_line(ladder, i + 1, line)?;
    }
    Ok(request)
}
