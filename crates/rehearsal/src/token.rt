// The fields of a line as tokens, and the numbers that they write.
ghost use Rattle.std.specs.Prelude.{◌≡◌};
ghost use Rattle.std.specs.Char.{is_ascii_digit};
ghost use Rattle.std.specs.List.{list_all};
ghost use Rattle.rehearsal.specs.Tokens.{Takes, tokens_left, tokens_of, is_written, number_of, numbers_of, token_of, token_view, value_of};

use crate::parts::cut;

// A number is below this.
const LIMIT: u64 = 1 << 63;

// A field, as a part of its line: one that is written as a number, or any other.
#[derive(Clone, Copy)]
pub(crate) enum Token<'a> {
    Word(&'a [u8]),
    Number(&'a [u8]),
}

fn are_digits(field: &[u8]) -> bool
    ensures { result ≡ list_all is_ascii_digit field.now }
{
    field.iter().all(|byte| byte.is_ascii_digit())
}

// A number is written with digits, one or more, and with no zero before another digit.
fn is_written(field: &[u8]) -> bool
    ensures { result ≡ is_written field.now }
{
    match field {
        [] | [b'0', _, ..] => false,
        _ => are_digits(field),
    }
}

impl<'a> Token<'a> {
    pub(crate) fn of(field: &'a [u8]) -> Token<'a>
        ensures { token_view result ≡ token_of field.now }
    {
        if is_written(field) {
            Token::Number(field)
        } else {
            Token::Word(field)
        }
    }
}

// The tokens of fields, taken one after the other.
#[derive(Clone, Copy)]
pub(crate) struct Tokens<'a> {
    rest: Option<&'a [u8]>,
}

impl<'a> Tokens<'a> {
    pub(crate) fn of(fields: &'a [u8]) -> Tokens<'a>
        ensures { tokens_left result ≡ tokens_of fields.now }
    {
        Tokens { rest: Some(fields) }
    }

    pub(crate) fn take(&mut self) -> Option<Token<'a>>
        ensures { Takes (tokens_left self.old) result (tokens_left self.new) }
    {
        let rest = self.rest?;
        match cut(rest, b'\t') {
            Some((field, behind)) => {
                self.rest = Some(behind);
                Some(Token::of(field))
            }
            None => {
                self.rest = None;
                Some(Token::of(rest))
            }
        }
    }
}

// The number that the digits of a token write, if it is below the limit.
#[tactic(auto, using(crate::proofs::Digits::grows))]
pub(crate) fn value(digits: &[u8]) -> Option<u64>
    ensures { result ≡ value_of digits.now }
{
    let mut n: u64 = 0;
    for &byte in digits {
        let digit = char::from(byte).to_digit(10)?;
        n = n.checked_mul(10)?.checked_add(u64::from(digit))?;
    }
    (n < LIMIT).then_some(n)
}

// The number that a field writes; none where it is a word, or the number is too large.
pub(crate) fn number(field: &[u8]) -> Option<u64>
    ensures { result ≡ number_of field.now }
{
    match Token::of(field) {
        Token::Number(digits) => value(digits),
        Token::Word(_) => None,
    }
}

// The numbers of two fields.
pub(crate) fn two_numbers(fields: &[u8]) -> Option<(u64, u64)>
    ensures { result ≡ numbers_of fields.now }
{
    let mut tokens = Tokens::of(fields);
    match (tokens.take(), tokens.take(), tokens.take()) {
        (Some(Token::Number(first)), Some(Token::Number(second)), None) => {
            Some((value(first)?, value(second)?))
        }
        _ => None,
    }
}
