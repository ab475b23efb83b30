// The call that a line asks for.
//
// A line has no words, or is one of `put NUMBER BROKER buy SHARES PRICE`, `put NUMBER BROKER buy SHARES at-auction`, the
// same two with `sell`, `replace OLD NUMBER SHARES PRICE`, `replace OLD NUMBER SHARES` and `cut NUMBER SHARES`.
// '#' begins a comment. Zeros are let through: refusing them is for the book.
ghost use Rattle.std.specs.Prelude.{◌≡◌};
ghost use Rattle.words.specs.Cutting.{words, said};
ghost use Rattle.book_calls.specs.Meaning.{numeral_in, side_in, price_in, kind_in, put_line, replace_line, cut_line, call_named, call_in};

use crate::BookCall;
use crate::faults::CallFault;
use book::Replacement;
use order::{Kind, Order, Side};
use words::{Words, is_word, number, uncommented};

// An entry number, a broker or shares.
fn numeral_in(word: &[u8]) -> Result<u32, CallFault>
    ensures { result ≡ numeral_in word.now }
{
    number(word).ok_or(CallFault::BadNumber)
}

fn side_in(word: &[u8]) -> Result<Side, CallFault>
    ensures { result ≡ side_in word.now }
{
    Side::try_from(word).map_err(|_| CallFault::BadSide)
}

// Not one function with `numeral_in`: each is the library's `ok_or`, with a fault of its own.
fn price_in(word: &[u8]) -> Result<u32, CallFault>
    ensures { result ≡ price_in word.now }
{
    number(word).ok_or(CallFault::BadPrice)
}

// The price of an order that is put. Not one function with the reader of orders, whose prices need a ladder: it would
// take the way to read a price, and be longer than both.
fn kind_in(word: &[u8]) -> Result<Kind, CallFault>
    ensures { result ≡ kind_in word.now }
{
    if is_word(word, b"at-auction") {
        Ok(Kind::AtAuction)
    } else {
        price_in(word).map(Kind::Limit)
    }
}

// What follows `put`.
fn put_line(mut words: Words<'_>) -> Result<BookCall, CallFault>
    ensures { result ≡ put_line words.entry }
{
    let number = numeral_in(words.next().ok_or(CallFault::WordMissing)?)?;
    let broker = numeral_in(words.next().ok_or(CallFault::WordMissing)?)?;
    let side = side_in(words.next().ok_or(CallFault::WordMissing)?)?;
    let shares = numeral_in(words.next().ok_or(CallFault::WordMissing)?)?;
    let kind = kind_in(words.next().ok_or(CallFault::WordMissing)?)?;
    let order = Order {
        number,
        broker,
        side,
        kind,
        shares,
    };
    words.end(BookCall::Put(order), CallFault::WordTooMany)
}

// What follows `replace`.
fn replace_line(mut words: Words<'_>) -> Result<BookCall, CallFault>
    ensures { result ≡ replace_line words.entry }
{
    let old = numeral_in(words.next().ok_or(CallFault::WordMissing)?)?;
    let number = numeral_in(words.next().ok_or(CallFault::WordMissing)?)?;
    let shares = numeral_in(words.next().ok_or(CallFault::WordMissing)?)?;
    let price = words.next().map(price_in).transpose()?;
    let new = Replacement {
        number,
        price,
        shares,
    };
    words.end(BookCall::Replace(old, new), CallFault::WordTooMany)
}

// What follows `cut`.
fn cut_line(mut words: Words<'_>) -> Result<BookCall, CallFault>
    ensures { result ≡ cut_line words.entry }
{
    let number = numeral_in(words.next().ok_or(CallFault::WordMissing)?)?;
    let shares = numeral_in(words.next().ok_or(CallFault::WordMissing)?)?;
    words.end(BookCall::Cut(number, shares), CallFault::WordTooMany)
}

// The call that the first word names, and what follows it.
fn call_named(word: &[u8], words: Words<'_>) -> Result<BookCall, CallFault>
    ensures { result ≡ call_named word.now words.entry }
{
    // no `match` on the word: the proof did not close at one as long as `replace`
    if is_word(word, b"put") {
        put_line(words)
    } else if is_word(word, b"replace") {
        replace_line(words)
    } else if is_word(word, b"cut") {
        cut_line(words)
    } else {
        Err(CallFault::UnknownWord)
    }
}

// What a line asks for; nothing where it has no words.
pub fn read_call(line: &[u8]) -> Result<Option<BookCall>, CallFault>
    ensures { result ≡ call_in (words (said line.now)) }
{
    let mut words = Words::new(uncommented(line));
    let Some(word) = words.next() else {
        return Ok(None);
    };
    call_named(word, words).map(Some)
}
