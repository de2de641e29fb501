// The faults that the hands of a crew met, by which they cut tasks.
ghost use Rattle.std.specs.Prelude.{◌≡◌, [], Some, Contains, IfOk, IfErr, IfSome, IfNone, length};
ghost use Rattle.std.specs.Arc.{arc_value};
ghost use Rattle.ped_path.specs.Path.{IsBefore};
ghost use Rattle.serial_meaning.specs.Answer.{IsCut, start_of};
ghost use Rattle.serial_meaning.specs.Open.{faults};

use crate::cells::{Cells, Follows, Found, Unset};
use crate::entry::Entry;
use crate::known_faults::{KnownFaults, is_of};
use crate::memory::Memory;
use once_cell::race::Note;
use serial_meaning::{Fault, Keep, Known, Plan};
use std::alloc::Global;
use std::marker::Model;
use std::sync::Arc;
use strand_machine::Task;

// The most faults that the hands of a crew tell one another. In the list each fault of a plan precedes the plan's
// earlier one, so there are many only where faults are met from right to left. Once the cells are used up, a hand cuts
// by the faults that it knows.
const CELLS: usize = 4096;

impl Follows for Known {
    ghost use Rattle.parallel_runner.specs.Faults.{StandsFirst};

    ghost follows = { λ k before. StandsFirst k.plan k.fault before };
}

// What a hand knows of the faults that the hands of its crew met. All share one list of cells, which are set in order,
// each by a fault that precedes all those of its plan in the earlier cells.
#[derive(Drop)]
pub(crate) struct Faults {
    cells: Cells<Known>,
    // Those of the cells that it has read, and those of its own for which no cell was left.
    known: KnownFaults,
    // Whether the last cancellation check cancelled.
    cuts: bool,
}

impl Model for Faults {
    ghost use Rattle.std.specs.Coded.{codes};
    ghost use Rattle.serial_meaning.specs.contracts.plan.Plan as plan_type;
    ghost use Rattle.parallel_runner.specs.Faults.{FaultsView, AreKnown};

    ghost Value = { FaultsView };

    ghost coded = { Prim.hlevel (codes, plan_type.the_row.coded) };

    ghost view = { λ f. record { cells = f.cells; known = f.known } };

    ghost invariant = { λ f. AreKnown f.known f.cells.read };
}

// What became of a fault that a hand met.
#[derive(Drop)]
pub(crate) enum Told {
    // The hand knows one of the plan before which it doesn't stand.
    Late,
    // The next cell has it, as the cell itself says.
    Set(Note<Arc<Known>>),
    // No cell was left, so this hand alone knows it.
    Alone,
}

// Whether a task is cut.
#[derive(Drop)]
pub(crate) enum Check {
    // By this fault.
    Cuts(Fault),
    // No fault may cut it that the hand knows once it has read all cells up to this one.
    Passes(Unset),
}

// The fault for a cell.
fn known_fault(alloc: Global, plan: &Arc<Plan>, fault: &Fault) -> Result<Box<Arc<Known>>, Memory>
    requires { Contains (faults (arc_value plan.now)) fault.now }
    ensures { IfOk result (λ known. arc_value known.value ≡ record { plan = arc_value plan.now; fault = fault.now }) }
{
    let plan = Arc::try_clone(plan)?;
    let fault = fault.share()?;
    let known = Arc::new(alloc, Known::new(plan, fault))?;
    Ok(Box::new(alloc, known)?)
}

// The fault, where the task may be cut by it.
fn cutting<K: Keep>(known: &Known, task: &Task<K>) -> Result<Option<Fault>, Memory>
    ensures some { IfOk result (λ by. IfSome by (IsCut task.now.task.plan task.now.task.origin)) }
    ensures none { IfOk result (λ by. IfNone by (known.now.plan ≡ task.now.task.plan → IsBefore known.now.fault.at (start_of task.now.task.origin) → ⊥)) }
{
    if !task.may_cut(&known.fault) {
        return Ok(None);
    }
    if !is_of(known, task.plan()) {
        return Ok(None);
    }
    let by = known.fault.share()?;
    Ok(Some(by))
}

impl Faults {
    ghost use Rattle.std.specs.Prelude.{OnErr};
    ghost use Rattle.parallel_runner.specs.Cells.{IsNext};
    ghost use Rattle.parallel_runner.specs.Faults.{Checks, NoneCuts, ReadsOn, ReadsOne, StandsFirst, Tells};

    /// No fault was met.
    pub fn new(alloc: Global) -> Result<Faults, Memory>
        ensures { IfOk result (λ faults. (faults.cells.read ≡ []) × (faults.known ≡ [])) }
    {
        Ok(Faults::of(alloc, Cells::new(alloc, CELLS)?))
    }

    #[tactic(auto, using(crate::proofs::Knowing::none_known))]
    fn of(alloc: Global, cells: Cells<Known>) -> Faults
        requires { cells.read ≡ [] }
        ensures { result ≡ record { cells = cells; known = [] } }
    {
        Faults {
            cells,
            known: KnownFaults::none(alloc),
            cuts: false,
        }
    }

    /// The same cells for another hand of the crew, which has read none.
    pub fn share(&self, alloc: Global) -> Result<Faults, Memory>
        ensures { IfOk result (λ faults. faults ≡ record { cells = record self.now.cells { read = [] }; known = [] }) }
    {
        Ok(Faults::of(alloc, self.cells.share()?))
    }

    /// Whether the last cancellation check cancelled.
    pub fn cuts(&self) -> bool {
        self.cuts
    }

    // Reads the next cell. Where it has no value, it gives the look that found none. A cell for whose fault there is no memory stays unread.
    #[tactic(auto, using(crate::proofs::Knowing::reads_none, crate::proofs::Knowing::reads_one))]
    #[inline(always)]
    fn read_next(&mut self) -> Result<Option<Unset>, Memory>
        ensures reads { ReadsOn self.old self.new }
        ensures one { IfOk result (ReadsOne self.old self.new) }
    {
        match self.cells.next()? {
            Found::None(unset) => Ok(Some(unset)),
            Found::Value(known, note) => {
                self.known.note(Arc::try_clone(&known)?)?;
                self.cells.pass(&known, note);
                Ok(None)
            }
        }
    }

    // Reads on, up to the first cell that has no value.
    #[tactic(auto, using(crate::proofs::Knowing::reads_none, crate::proofs::Knowing::reads_more))]
    #[inline(always)]
    fn read_on(&mut self) -> Result<Unset, Memory>
        ensures reads { ReadsOn self.old self.new }
        ensures unset { IfOk result (λ unset. unset ≡ length self.new.cells.read) }
    {
        loop {
            if let Some(unset) = self.read_next()? {
                return Ok(unset);
            }
        }
    }

    // Sets the next cell by this fault, which stands before all of its plan that the hand knows. It comes back where another hand set the
    // cell.
    #[tactic(auto, using(crate::proofs::Knowing::stands_first))]
    fn set(&self, known: Box<Arc<Known>>) -> Result<Note<Arc<Known>>, Box<Arc<Known>>>
        requires { StandsFirst (arc_value known.value).plan (arc_value known.value).fault self.now.known }
        ensures next { IfOk result (λ note. IsNext self.now.cells note.cell) }
        ensures value { IfOk result (λ note. note.known ≡ Some known.value) }
        ensures err { IfErr result (λ back. back.value ≡ known.value) }
    {
        self.cells.set(known)
    }

    // Sets the next cell by this fault where it stands before all that are known of its plan.
    fn offer(&mut self, known: Box<Arc<Known>>) -> Result<Told, Memory>
        ensures { IfOk result (Tells (arc_value known.value) self.new) }
    {
        let mut known = known;
        // Each time that another hand has set the cell, one more is read.
        for _ in 0..=CELLS {
            self.read_on()?;
            if !self.known.is_news(&known.plan, &known.fault) {
                return Ok(Told::Late);
            }
            if self.cells.is_spent() {
                self.known.note(Box::into_inner(known))?;
                return Ok(Told::Alone);
            }
            match self.set(known) {
                Ok(note) => return Ok(Told::Set(note)),
                Err(back) => known = back,
            }
        }
        Err(Memory)
    }

    /// Tells the hands of a fault that was met, where it stands before all that this one knows of its plan.
    pub fn publish(
        &mut self,
        alloc: Global,
        plan: &Arc<Plan>,
        fault: &Fault,
    ) -> Result<Told, Memory>
        requires { Contains (faults (arc_value plan.now)) fault.now }
        ensures { IfOk result (Tells (record { plan = arc_value plan.now; fault = fault.now }) self.new) }
    {
        self.read_on()?;
        if !self.known.is_news(plan, fault) {
            return Ok(Told::Late);
        }
        let known = known_fault(alloc, plan, fault)?;
        self.offer(known)
    }

    /// The entry, with the least fault that the hand knows of its plan, where that may cut the task's children.
    #[inline(always)]
    pub fn tell<K: Keep>(&self, entry: Entry<K>) -> Entry<K>
        ensures { result ≡ entry }
    {
        if self.known.least().is_empty() {
            return entry;
        }
        self.tell_all(entry)
    }

    #[inline(never)]
    fn tell_all<K: Keep>(&self, entry: Entry<K>) -> Entry<K>
        ensures { result ≡ entry }
    {
        let mut entry = entry;
        for known in self.known.least() {
            entry = entry.told(known);
        }
        entry
    }

    // The fault that the hand or the entry knows by which the task may be cut, if there is one.
    #[inline(never)]
    fn cutting<K: Keep>(&self, entry: &Entry<K>) -> Result<Option<Fault>, Memory>
        ensures some { IfOk result (λ by. IfSome by (IsCut entry.now.task.plan entry.now.task.origin)) }
        ensures none { IfOk result (λ by. IfNone by (NoneCuts self.now.known entry.now.task.plan entry.now.task.origin)) }
    {
        if let Some(by) = entry.cutting() {
            return Ok(Some(by));
        }
        for known in self.known.least() {
            if let Some(by) = cutting(known, &entry.task)? {
                return Ok(Some(by));
            }
        }
        Ok(None)
    }

    /// Whether the task is cut: by a fault that the hand knows once it has read on, also where there was no memory to read all.
    #[inline(always)]
    pub fn cut<K: Keep>(&mut self, entry: &Entry<K>) -> Result<Check, Memory>
        ensures { IfOk result (Checks entry.now self.new) }
    {
        let read = self.read_on();
        self.cuts = false;
        if !self.known.least().is_empty() {
            if let Some(by) = self.cutting(entry)? {
                self.cuts = true;
                return Ok(Check::Cuts(by));
            }
        }
        Ok(Check::Passes(read?))
    }
}
