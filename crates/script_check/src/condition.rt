// The conditions of a valid script, their numbers, and their names.

ghost use Rattle.std.specs.Prelude.{◌≡◌};
ghost use Rattle.script_check.specs.Conditions.{condition_of, condition_text, number_of, condition_name};

// The conditions of a valid script, by what violates them. `CheckError` also has the offset.
#[derive(Clone, Copy)]
pub(crate) enum Condition {
    NoMain,
    MainHasParameters,
    FunctionTwice,
    VariableTwice,
    UnknownFunction,
    UnknownVariable,
    WrongNumberOfArguments,
    WrongKind,
    PendingVariable,
    LetInABlock,
    TooManyVariables,
    ArrayLength,
}

impl Condition {
    // The number by which it is reported.
    pub(crate) fn number(self) -> u8
        ensures { result ≡ number_of self }
    {
        match self {
            Condition::NoMain => 1,
            Condition::MainHasParameters => 2,
            Condition::FunctionTwice => 3,
            Condition::VariableTwice => 4,
            Condition::UnknownFunction => 5,
            Condition::UnknownVariable => 6,
            Condition::WrongNumberOfArguments => 7,
            Condition::WrongKind => 8,
            Condition::PendingVariable => 9,
            Condition::LetInABlock => 10,
            Condition::TooManyVariables => 11,
            Condition::ArrayLength => 12,
        }
    }

    // The condition of this number, or the last one where none has it.
    fn of_number(number: u8) -> Condition
        ensures { result ≡ condition_of number }
    {
        match number {
            1 => Condition::NoMain,
            2 => Condition::MainHasParameters,
            3 => Condition::FunctionTwice,
            4 => Condition::VariableTwice,
            5 => Condition::UnknownFunction,
            6 => Condition::UnknownVariable,
            7 => Condition::WrongNumberOfArguments,
            8 => Condition::WrongKind,
            9 => Condition::PendingVariable,
            10 => Condition::LetInABlock,
            11 => Condition::TooManyVariables,
            _ => Condition::ArrayLength,
        }
    }

    fn text(self) -> &'static str
        ensures { result.now ≡ condition_name self }
    {
        match self {
            Condition::NoMain => "no main",
            Condition::MainHasParameters => "main has parameters",
            Condition::FunctionTwice => "function twice",
            Condition::VariableTwice => "variable twice",
            Condition::UnknownFunction => "unknown function",
            Condition::UnknownVariable => "unknown variable",
            Condition::WrongNumberOfArguments => "wrong number of arguments",
            Condition::WrongKind => "wrong kind",
            Condition::PendingVariable => "pending variable",
            Condition::LetInABlock => "let in a block",
            Condition::TooManyVariables => "too many variables",
            Condition::ArrayLength => "array length",
        }
    }
}

/// The name of the condition with this number of `CheckError::Bad`: `no main` is 1. A number that no condition has counts as 12.
pub fn condition_text(number: u8) -> &'static str
    ensures { result.now ≡ condition_text number }
{
    Condition::of_number(number).text()
}
