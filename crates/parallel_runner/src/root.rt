use contract_views::Items;
use meet_block::{Join, Look};
use serial_meaning::{All, Answer, Keep, laws};
use std::marker::Model;

/// The end at which the answer of a whole run comes: a join whose one child is main, the run's root. A clause sees it as the join.
#[derive(Drop)]
pub struct Root<K: Keep = All> {
    pub(crate) join: Join<Answer<K>>,
}

impl<K: Keep> Model for Root<K> {
    ghost use Rattle.std.specs.Prelude.{◌≡◌, ◌∷◌, [], false};
    ghost use Rattle.std.specs.Coded.{codes};
    ghost use Rattle.serial_meaning.specs.contracts.plan.Plan as plan_type;
    ghost use Rattle.serial_meaning.specs.Answer.{AnswerTag};
    ghost use Rattle.meet_block.specs.Joined.{JoinView};
    ghost use Rattle.parallel_runner.specs.Crews.{IsMainAlone};

    ghost Value = { JoinView AnswerTag };

    ghost coded = { Prim.hlevel (codes, plan_type.the_row.coded) };

    ghost view = { λ r. r.join };

    ghost invariant = { λ r. IsMainAlone r.join.children.tags × (r.join.children.taken ≡ false ∷ []) };
}

/// The roots of a run, by the numbers of their plans.
#[derive(Drop)]
pub struct Roots<K: Keep = All>(pub Items<Root<K>>);

impl<K: Keep> Root<K> {
    ghost use Rattle.std.specs.Prelude.{◌≡◌, ◌∷◌, [], true};
    ghost use Rattle.meet_block.specs.Joined.{LookAnswers};
    ghost use Rattle.serial_meaning.specs.Render.{IsWhole};
    ghost use Rattle.strand_machine.specs.Links.{tag};

    /// Says whether the answer was put. It takes no memory and doesn't wait.
    pub fn look(&mut self) -> Look
        ensures answers { LookAnswers self.old.children self.new.children result }
        ensures tags { self.new.children.tags ≡ self.old.children.tags }
    {
        self.join.look()
    }

    /// Takes the answer, which has to be there. It is no cut: nothing stands before main's path.
    pub fn take(self) -> Answer<K>
        requires { self.children.ready ≡ true }
        ensures tag { self.children.tags ≡ tag result.plan result.origin ∷ [] }
        ensures whole { IsWhole result.outcome }
    {
        laws::main_is_not_cut();
        let Root { mut join } = self;
        let answer = join.take(0);
        // Read for the proof: an answer keeps by its type how an origin of the plan may end.
        let _outcome = &answer.outcome;
        answer
    }
}
