// The faults that a hand knows of.
ghost use Rattle.std.specs.Prelude.{◌≡◌, ◌<◌, ◌↔◌, ◌++◌, ◌∷◌, [], IfSome, IfNone, IsTrue, OnOk, OnErr, length, map, slice_index_or};
ghost use Rattle.std.specs.Arc.{arc_value};
ghost use Rattle.dotmix.specs.Draws.{coefficient};
ghost use Rattle.serial_meaning.specs.Answer.{KnownView};
ghost use Rattle.parallel_runner.specs.Faults.{HasNoneOf, IsLeastOf, StandsFirst};

use crate::memory::Memory;
use contract_views::KnownList;
use serial_meaning::{Fault, Known, Plan};
use std::alloc::Global;
use std::marker::Model;
use std::mem;
use std::sync::Arc;

// The faults of a run that a hand knows of. It keeps the least one of each plan.
//
// A clause sees it as the list of all of them, in the order in which they came to be known.
#[derive(Drop)]
pub(crate) struct KnownFaults {
    least: Vec<Arc<Known>>,
    all: KnownList<Known>,
}

impl Model for KnownFaults {
    ghost use Rattle.std.specs.Prelude.{List, map};
    ghost use Rattle.std.specs.Arc.{arc_value};
    ghost use Rattle.std.specs.Coded.{codes};
    ghost use Rattle.serial_meaning.specs.contracts.plan.Plan as plan_type;
    ghost use Rattle.serial_meaning.specs.Answer.{KnownView};
    ghost use Rattle.parallel_runner.specs.Faults.{AreLeast};

    ghost Value = { List KnownView };

    ghost coded = { Prim.hlevel (codes, plan_type.the_row.coded) };

    ghost view = { λ f. f.all.items };

    ghost invariant = { λ f. AreLeast f.all.items (map arc_value f.least.items) };
}

// The first coefficient of a plan.
fn first(plan: &Plan) -> u64
    ensures { result ≡ coefficient plan.now.gamma 1 }
{
    let _limits = &plan.limits;
    plan.gamma.coeff(1)
}

// Whether the fault is one of this plan. The first coefficient mostly tells it from the other plans of a crew, without a look at the
// script.
pub(crate) fn is_of(known: &Known, plan: &Plan) -> bool
    ensures { IsTrue result ↔ (known.now.plan ≡ plan.now) }
{
    first(&known.plan) == first(plan) && known.plan.same(plan)
}

// Which of these faults is one of this plan, if any.
fn place_of(least: &[Arc<Known>], plan: &Plan) -> Option<usize>
    ensures some { IfSome result (λ i. (i < length least.now) × ((d : KnownView) → (slice_index_or (map arc_value least.now) i d).plan ≡ plan.now)) }
    ensures none { IfNone result (HasNoneOf plan.now (map arc_value least.now)) }
{
    for i in 0..least.len() {
        if is_of(&least[i], plan) {
            return Some(i);
        }
    }
    None
}

// One more fault at the end.
fn add(all: &mut KnownList<Known>, known: &Known)
    ensures { all.new.items ≡ all.old.items ++ known.now ∷ [] }
{
    *all = mem::replace(all, KnownList::none()).with(known);
}

impl KnownFaults {
    ghost use Rattle.parallel_runner.specs.Faults.{AreLeast};

    /// No fault is known.
    pub fn none(alloc: Global) -> KnownFaults
        ensures { result ≡ [] }
    {
        KnownFaults {
            least: Vec::new(alloc),
            all: KnownList::none(),
        }
    }

    /// The least one of each plan of which one is known.
    pub fn least(&self) -> &[Arc<Known>]
        ensures { AreLeast self.now (map arc_value result.now) }
    {
        self.least.as_slice()
    }

    /// The least one of this plan, if one is known.
    pub fn least_of(&self, plan: &Plan) -> Option<&Known>
        ensures some { IfSome result (λ known. IsLeastOf plan.now self.now known.now) }
        ensures none { IfNone result (HasNoneOf plan.now self.now) }
    {
        let least = self.least.as_slice();
        match place_of(least, plan) {
            Some(i) => Some(&least[i]),
            None => None,
        }
    }

    /// Whether the fault, which is one of this plan, precedes all known ones of the plan.
    pub fn is_news(&self, plan: &Plan, fault: &Fault) -> bool
        ensures { IsTrue result ↔ StandsFirst plan.now fault.now self.now }
    {
        match self.least_of(plan) {
            Some(least) => fault.at.before(&least.fault.at),
            None => true,
        }
    }

    /// One more fault is known.
    pub fn note(&mut self, known: Arc<Known>) -> Result<(), Memory>
        ensures ok { OnOk result (self.new ≡ self.old ++ arc_value known ∷ []) }
        ensures err { OnErr result (self.new ≡ self.old) }
    {
        match place_of(self.least.as_slice(), &known.plan) {
            Some(i) => {
                add(&mut self.all, &known);
                if known.fault.at.before(&self.least[i].fault.at) {
                    self.least[i] = known;
                }
            }
            None => {
                self.least.try_reserve(1)?;
                add(&mut self.all, &known);
                self.least.push_reserved(known);
            }
        }
        Ok(())
    }
}
