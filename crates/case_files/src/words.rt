//! The words of a case's inputs as numbers.

ghost use Rattle.std.specs.Prelude.{◌≤◌, ◌<◌};

use crate::fault::CaseError;
use std::str::SplitWhitespace;

/// The words of a case's inputs, from left to right. A word that is missing or can't be read counts as 0 or as no text, and is told by
/// `check`.
#[derive(Drop)]
pub struct Words<'a> {
    rest: SplitWhitespace<'a>,
    is_good: bool,
}

impl<'a> Words<'a> {
    pub fn of(inputs: &'a str) -> Self {
        Words {
            rest: inputs.split_whitespace(),
            is_good: true,
        }
    }

    /// Whether each word that was asked for was there and could be read.
    pub fn check(&self) -> Result<(), CaseError> {
        if self.is_good {
            Ok(())
        } else {
            Err(CaseError::Unreadable)
        }
    }

    /// Notes that a word isn't what it must be.
    pub fn refuse(&mut self) {
        self.is_good = false;
    }

    /// The next word, if there is one.
    pub fn next(&mut self) -> Option<&'a str> {
        self.rest.next()
    }

    /// The next word.
    pub fn word(&mut self) -> &'a str {
        let next = self.rest.next();
        self.is_good &= next.is_some();
        next.unwrap_or("")
    }

    /// The next word as digits to a base of at most 36.
    fn digits(&mut self, radix: u32) -> u64
        requires least { 2 ≤ radix }
        requires most { radix ≤ 36 }
    {
        let number = u64::from_str_radix(self.word(), radix);
        self.is_good &= number.is_ok();
        number.unwrap_or(0)
    }

    /// The next word as hexadecimal digits.
    pub fn hex(&mut self) -> u64 {
        self.digits(16)
    }

    /// The next word as hexadecimal digits of a number of 128 bits.
    pub fn wide(&mut self) -> u128 {
        let number = u128::from_str_radix(self.word(), 16);
        self.is_good &= number.is_ok();
        number.unwrap_or(0)
    }

    /// The next word as decimal digits.
    pub fn decimal(&mut self) -> u64 {
        self.digits(10)
    }

    /// The next word as hexadecimal digits of a number of 16 bits.
    pub fn hex16(&mut self) -> u16 {
        let number = u16::try_from(self.hex());
        self.is_good &= number.is_ok();
        number.unwrap_or(0)
    }

    /// The next word as a number of 8 bits with decimal digits.
    pub fn small(&mut self) -> u8 {
        let number = u8::try_from(self.decimal());
        self.is_good &= number.is_ok();
        number.unwrap_or(0)
    }

    /// The number of the call that fails, the next word as decimal digits. No call fails where that is `-` or there is none.
    pub fn call(&mut self) -> u64 {
        let word = self.rest.next().unwrap_or("-");
        let number = u64::from_str_radix(word, 10);
        self.is_good &= word == "-" || number.is_ok();
        number.unwrap_or(u64::MAX)
    }

    /// The next word as a truth value, 0 or 1.
    pub fn bit(&mut self) -> bool {
        let number = self.decimal();
        self.is_good &= number < 2;
        number == 1
    }

    /// The next word as a register's number in a fault, below 64.
    pub fn register(&mut self) -> u64
        ensures { result < 64 }
    {
        let number = self.small();
        if number < 64 {
            u64::from(number)
        } else {
            self.refuse();
            0
        }
    }
}
