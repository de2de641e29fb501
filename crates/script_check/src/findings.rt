// The violated conditions that a walk meets, of which the first is kept.

ghost use Rattle.std.specs.Prelude.{◌≡◌};
ghost use Rattle.script_check.specs.Conditions.{number_of};
ghost use Rattle.script_check.specs.Violations.{violation_if, earliest};

use crate::condition::Condition;
use std::marker::Model;

// A violated condition: its number, and an offset.
#[derive(Clone, Copy)]
pub(crate) struct Violation {
    pub at: u32,
    pub number: u8,
}

// The first violation so far, by offset and then by number.
#[derive(Drop)]
pub(crate) struct Findings {
    least: Option<Violation>,
}

impl Model for Findings {
    ghost use Rattle.std.specs.Prelude.{Option};
    ghost use Rattle.script_check.specs.declared.findings.Violation.{Violation};

    ghost Value = { Option Violation };

    ghost view = { λ f. f.least };
}

impl Findings {
    ghost use Rattle.std.specs.Prelude.{None};

    // No violation.
    pub(crate) fn new() -> Findings
        ensures { result ≡ None }
    {
        Findings { least: None }
    }

    // Adds a violation at this offset, if the condition is broken there.
    pub(crate) fn add_violation_if(&mut self, is_broken: bool, condition: Condition, at: u32)
        ensures { self.new ≡ earliest self.old (violation_if is_broken (number_of condition) at) }
    {
        let number = condition.number();
        if is_broken {
            let is_least = match self.least {
                Some(least) => at < least.at || (at == least.at && number < least.number),
                None => true,
            };
            if is_least {
                self.least = Some(Violation { at, number });
            }
        }
    }

    // The first violation of those added.
    pub(crate) fn least(&self) -> Option<Violation>
        ensures { result ≡ self.now }
    {
        self.least
    }
}
