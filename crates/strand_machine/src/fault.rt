// How a task ends by the fault of a child.
ghost use Rattle.std.specs.Prelude.{◌≡◌, ◌∷◌, ◌++◌, [], true, false, None, IfOk};
ghost use Rattle.strand_machine.specs.Links.{tag, tags};
ghost use Rattle.strand_machine.specs.Faults.{is_fault, EndsByFault};
ghost use Rattle.strand_machine.specs.AwaitedChildren.{awaited};
ghost use Rattle.strand_machine.specs.Stops.{answer_tags, any_cut};

use crate::memory::Memory;
use crate::parts::Parts;
use crate::resume::resume_parts;
use crate::task::Task;
use crate::task_pool::TaskPool;
use contract_views::Items;
use meet_block::Give;
use serial_meaning::{Answer, Keep, Outcome};
use std::alloc::Global;

/// Whether the origin ended by a fault.
pub fn is_fault<K: Keep>(answer: &Answer<K>) -> bool
    ensures { result ≡ is_fault answer.now.outcome }
{
    matches!(answer.outcome, Outcome::Fault(_))
}

impl<K: Keep> Task<K> {
    /// Ends by the answers of the children that it awaits, in order, of which the last one, `last`, is a fault. Nothing
    /// after a fault counts, so the task isn't run any further: its answer is its own events and its children's
    /// answers, up to the first fault. None of them may be a cut. On `Memory` the task and the answers are dropped.
    pub fn end_by(
        self,
        alloc: Global,
        answers: Items<Answer<K>>,
        last: Answer<K>,
    ) -> Result<(Answer<K>, Give<Answer<K>>), Memory>
        requires tags { answer_tags answers ++ tag last.plan last.origin ∷ [] ≡ tags self.task.plan (awaited self.task.trace.unmerged) }
        requires fault { is_fault last.outcome ≡ true }
        requires whole { any_cut answers ≡ false }
        requires goes_on { self.cut ≡ None }
        ensures { IfOk result (λ ended. EndsByFault self ended.0 ended.1) }
    {
        // Read for the proof: a fault by which an answer ends is one of its plan's.
        let _outcome = &last.outcome;
        let mut answers = answers;
        answers.0.push(last)?;
        let Task { mut parts } = self;
        drop(resume_parts(&mut parts, alloc, answers, &mut TaskPool::new(alloc))?);
        let (links, prefix, fault) = Parts::end(parts);
        let Some(fault) = fault else { unreachable!() };
        Ok(links.answer(prefix, Outcome::Fault(fault)))
    }
}
