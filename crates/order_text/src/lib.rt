// Orders and a closing price, read from a text.
//
// A line of the text is blank, or one of `close PRICE`, `buy SHARES PRICE`, `buy SHARES at-auction` and the same two
// with `sell`. '#' begins a comment. A price is in whole thousandths of a dollar.
#![tactic(auto)]

ghost use Rattle.std.specs.Prelude.{◌≡◌};
ghost use Rattle.order_text.specs.Meaning.{shares_in, price_in, kind_in, close_line, trade_line, line_says};

use ladder::Ladder;
use order::{Kind, Side};
use words::{Words, is_word, number};

mod faults;
mod reading;

pub use faults::{BadLine, Fault};
pub use reading::{ReadError, Request, read};

// The most shares of an order.
const MOST_SHARES: u32 = 30_000_000;

// What a line says.
#[derive(Clone, Copy)]
enum Saying {
    Nothing,
    // the closing price
    Close(u32),
    // an order for so many shares
    Trade(Side, u32, Kind),
}

fn shares_in(word: &[u8]) -> Result<u32, Fault>
    ensures { result ≡ shares_in word.now }
{
    number(word)
        .filter(|n| (1..=MOST_SHARES).contains(n))
        .ok_or(Fault::BadShares)
}

fn price_in<L: Ladder>(ladder: &L, word: &[u8]) -> Result<u32, Fault>
    ensures { result ≡ price_in (L.Ladder.prices ladder.now) word.now }
{
    let price = number(word).ok_or(Fault::BadPrice)?;
    if ladder.is_legal(price) {
        Ok(price)
    } else {
        Err(Fault::PriceNotLegal)
    }
}

// The price of an order.
fn kind_in<L: Ladder>(ladder: &L, word: &[u8]) -> Result<Kind, Fault>
    ensures { result ≡ kind_in (L.Ladder.prices ladder.now) word.now }
{
    if is_word(word, b"at-auction") {
        Ok(Kind::AtAuction)
    } else {
        price_in(ladder, word).map(Kind::Limit)
    }
}

// What follows `close`. The ladder and the words are no struct: a word is read by the ladder alone, and each function's answer is
// one value of the two.
fn close_line<L: Ladder>(ladder: &L, mut words: Words<'_>) -> Result<Saying, Fault>
    ensures { result ≡ close_line (L.Ladder.prices ladder.now) words.entry }
{
    let price = price_in(ladder, words.next().ok_or(Fault::WordMissing)?)?;
    words.end(Saying::Close(price), Fault::WordTooMany)
}

// What follows `buy` or `sell`.
fn trade_line<L: Ladder>(ladder: &L, side: Side, mut words: Words<'_>) -> Result<Saying, Fault>
    ensures { result ≡ trade_line (L.Ladder.prices ladder.now) side words.entry }
{
    let shares = shares_in(words.next().ok_or(Fault::WordMissing)?)?;
    let kind = kind_in(ladder, words.next().ok_or(Fault::WordMissing)?)?;
    words.end(Saying::Trade(side, shares, kind), Fault::WordTooMany)
}

// What the words of a line say.
fn line_says<L: Ladder>(ladder: &L, mut words: Words<'_>) -> Result<Saying, Fault>
    ensures { result ≡ line_says (L.Ladder.prices ladder.now) words.entry }
{
    let Some(word) = words.next() else {
        return Ok(Saying::Nothing);
    };
    if is_word(word, b"close") {
        return close_line(ladder, words);
    }
    let side = Side::try_from(word).map_err(|_| Fault::UnknownWord)?;
    trade_line(ladder, side, words)
}
