// The faults of a text, their numbers, and their names.

ghost use Rattle.std.specs.Prelude.{◌≡◌};
ghost use Rattle.script_text.specs.Numbers.{fault_of, fault_text, number_of, fault_name};

use crate::error::SyntaxError;

// The faults of a text, by what is wrong. `SyntaxError` also has the offset.
#[derive(Clone, Copy)]
pub(crate) enum TextFault {
    NotAscii,
    UnexpectedToken,
    NumberOutOfRange,
    NameTooLong,
    NestedTooDeep,
    UnexpectedEnd,
    TooManyFunctions,
}

impl TextFault {
    fn number(self) -> u8
        ensures { result ≡ number_of self }
    {
        match self {
            TextFault::NotAscii => 1,
            TextFault::UnexpectedToken => 2,
            TextFault::NumberOutOfRange => 3,
            TextFault::NameTooLong => 4,
            TextFault::NestedTooDeep => 5,
            TextFault::UnexpectedEnd => 6,
            TextFault::TooManyFunctions => 7,
        }
    }

    // The fault of this number, or the last one where none has it.
    fn of_number(number: u8) -> TextFault
        ensures { result ≡ fault_of number }
    {
        match number {
            1 => TextFault::NotAscii,
            2 => TextFault::UnexpectedToken,
            3 => TextFault::NumberOutOfRange,
            4 => TextFault::NameTooLong,
            5 => TextFault::NestedTooDeep,
            6 => TextFault::UnexpectedEnd,
            _ => TextFault::TooManyFunctions,
        }
    }

    fn text(self) -> &'static str
        ensures { result.now ≡ fault_name self }
    {
        match self {
            TextFault::NotAscii => "not ASCII",
            TextFault::UnexpectedToken => "unexpected token",
            TextFault::NumberOutOfRange => "number out of range",
            TextFault::NameTooLong => "name too long",
            TextFault::NestedTooDeep => "nested too deep",
            TextFault::UnexpectedEnd => "unexpected end",
            TextFault::TooManyFunctions => "too many functions",
        }
    }

    // This fault at an offset.
    pub(crate) fn at(self, at: u32) -> SyntaxError
        ensures { result ≡ SyntaxError.Bad (number_of self) at }
    {
        SyntaxError::Bad {
            number: self.number(),
            at,
        }
    }
}

/// The name of the fault with this number of `SyntaxError::Bad`: `not ASCII` is 1. A number that no fault has counts as 7.
pub fn fault_text(number: u8) -> &'static str
    ensures { result.now ≡ fault_text number }
{
    TextFault::of_number(number).text()
}
