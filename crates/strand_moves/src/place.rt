// Where an instance stands.

ghost use Rattle.std.specs.Prelude.{◌≡◌, IfOk};
ghost use Rattle.serial_meaning.specs.Functions.{function_at};
ghost use Rattle.serial_meaning.specs.Plan.{functions_of};
ghost use Rattle.strand_meaning.specs.Machine.{move};
ghost use Rattle.strand_moves.specs.Standing.{place_of, return_of};

use crate::effects::MoveResult;
use crate::instance::Instance;
use crate::instance_parts::InstanceParts;
use crate::memory::Memory;
use serial_meaning::Plan;
use std::alloc::Global;

/// Where an instance stands in the script's text.
#[derive(Clone, Copy, Debug, PartialEq, Eq)]
pub struct Place {
    /// The function of its innermost call, by its index in the script.
    pub function: u32,
    /// The offset of its next statement, or of the word `return` where none is left.
    pub at: u32,
}

// The offset of a function's word `return`.
fn return_at(plan: &Plan, function: u32) -> u32
    ensures { result ≡ return_of (function_at (functions_of plan.now) function) }
{
    match plan.functions().get(function as usize) {
        Some(f) => f.return_at,
        None => 0,
    }
}

impl InstanceParts {
    ghost use Rattle.strand_moves.specs.InstanceParts.{IsInstance, machine_of, path_of};
    ghost use Rattle.strand_moves.specs.Moves.{run_of, MovesTrail};

    // One move, and where the instance stood before it.
    pub(crate) fn make_placed_move(
        &mut self,
        alloc: Global,
        plan: &Plan,
    ) -> Result<(Place, MoveResult), Memory>
        requires { IsInstance plan.now self.old }
        ensures place { IfOk result (λ p. p.0 ≡ place_of plan.now (machine_of plan.now self.old)) }
        ensures moves { IfOk result (λ p. move plan.now (path_of self.old) (machine_of plan.now self.old) ≡ run_of p.1 (machine_of plan.now self.new)) }
        ensures child { IfOk result (λ p. MovesTrail plan.now p.1) }
        ensures path { IfOk result (λ _. path_of self.new ≡ path_of self.old) }
        ensures sound { IfOk result (λ _. IsInstance plan.now self.new) }
    {
        let function = self.top.function;
        let text = self.top.statements(plan);
        match self.top.cursor.pass_next(text) {
            Some(statement) => {
                let at = statement.at;
                let move_result = self.make(alloc, plan, Some(statement))?;
                Ok((Place { function, at }, move_result))
            }
            None => {
                let at = return_at(plan, function);
                let move_result = self.make(alloc, plan, None)?;
                Ok((Place { function, at }, move_result))
            }
        }
    }
}

impl Instance {
    ghost use Rattle.strand_moves.specs.Machines.{IsInstance, machine_of, path_of};
    ghost use Rattle.strand_moves.specs.Moves.{run_of, MovesTrail};

    /// One move as `make_move` makes it, and where the instance stood before it.
    pub fn make_placed_move(
        &mut self,
        alloc: Global,
        plan: &Plan,
    ) -> Result<(Place, MoveResult), Memory>
        requires { IsInstance plan.now self.old }
        ensures place { IfOk result (λ p. p.0 ≡ place_of plan.now (machine_of plan.now self.old)) }
        ensures moves { IfOk result (λ p. move plan.now (path_of self.old) (machine_of plan.now self.old) ≡ run_of p.1 (machine_of plan.now self.new)) }
        ensures child { IfOk result (λ p. MovesTrail plan.now p.1) }
        ensures path { IfOk result (λ _. path_of self.new ≡ path_of self.old) }
        ensures sound { IfOk result (λ _. IsInstance plan.now self.new) }
    {
        self.parts.make_placed_move(alloc, plan)
    }
}
