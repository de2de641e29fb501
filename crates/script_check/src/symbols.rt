// What is declared and what is pending before a statement.

ghost use Rattle.std.specs.Prelude.{◌≡◌, false, true, OnOk, ◌&&◌};
ghost use Rattle.script_check.specs.Names.{no_names, names_if, with_name};
ghost use Rattle.script_check.specs.Tables.{no_entries, with_first};
ghost use Rattle.script_check.specs.Rules.{declaration};
ghost use Rattle.script_check.specs.Violations.{earliest};
ghost use Rattle.script_check.specs.Walk.{undo, undone, walk_state, known_in, pending_in};

use crate::condition::Condition;
use crate::findings::Findings;
use crate::memory::Memory;
use crate::names::NameTable;
use crate::variable::Variable;
use script_grammar::Name;
use std::alloc::Global;
use std::mem;

// The most variables of a function.
pub(crate) const MOST_VARIABLES: usize = 256;

// How to undo a change of the pending set: the name that was added, or the set that a sync emptied.
#[derive(Drop)]
pub(crate) enum Change {
    Added(Vec<u8>),
    Cleared(NameTable<()>),
}

// An open block: the changes of the pending set since it began, the newest last, and whether what was pending at its start may
// still be so.
#[derive(Drop)]
pub(crate) struct Block {
    changes: Vec<Change>,
    keeps: bool,
}

// The declared variables, the pending set, and the innermost open block. All open blocks share the set, and the end of a block
// undoes its changes: so each use of a name is one lookup, however many blocks are open, and no block copies the set.
#[derive(Drop)]
pub(crate) struct SymbolTable {
    known: NameTable<Variable>,
    pending: NameTable<()>,
    block: Block,
}

impl SymbolTable {
    // Nothing declared, nothing pending.
    pub(crate) fn new(alloc: Global) -> SymbolTable
        ensures known { known_in result ≡ no_entries }
        ensures pending { pending_in result ≡ no_names }
    {
        SymbolTable {
            known: NameTable::new(alloc),
            pending: NameTable::new(alloc),
            block: Block {
                changes: Vec::new(alloc),
                keeps: true,
            },
        }
    }

    // The variable with this name.
    pub(crate) fn variable(&self, name: &Name) -> Option<Variable>
        ensures { result ≡ (known_in self.now).what name.now.bytes }
    {
        self.known.get(name.bytes.as_slice())
    }

    // Whether a name is pending.
    pub(crate) fn is_pending(&self, name: &Name) -> bool
        ensures { result ≡ pending_in self.now name.now.bytes }
    {
        self.pending.get(name.bytes.as_slice()).is_some()
    }

    // Declares a variable, and adds a violation where its name is declared already or it is one too many.
    pub(crate) fn declare(
        &mut self,
        alloc: Global,
        found: &mut Findings,
        name: &Name,
        variable: Variable,
    ) -> Result<(), Memory>
        ensures state { OnOk result (walk_state self.new ≡ record (walk_state self.old) { known = with_first (known_in self.old) name.now.bytes variable }) }
        ensures found { OnOk result (found.new ≡ earliest found.old (declaration (known_in self.old) name.now)) }
    {
        let bytes = name.bytes.as_slice();
        let is_known = self.known.get(bytes).is_some();
        found.add_violation_if(is_known, Condition::VariableTwice, name.at);
        found.add_violation_if(
            !is_known && self.known.len() == MOST_VARIABLES,
            Condition::TooManyVariables,
            name.at,
        );
        self.known.insert(alloc, bytes, variable)
    }

    // Records a spawn with this target.
    pub(crate) fn add_pending(&mut self, alloc: Global, name: &Name) -> Result<(), Memory>
        ensures { OnOk result (walk_state self.new ≡ record (walk_state self.old) { names = with_name name.now.bytes (walk_state self.old).names }) }
    {
        let bytes = name.bytes.as_slice();
        if self.pending.get(bytes).is_none() {
            let added = Change::Added(Vec::from_slice(alloc, bytes)?);
            self.block.changes.push(added)?;
            self.pending.insert(alloc, bytes, ())?;
        }
        Ok(())
    }

    // Nothing is pending any more.
    pub(crate) fn sync(&mut self, alloc: Global) -> Result<(), Memory>
        ensures { OnOk result (walk_state self.new ≡ record (walk_state self.old) { names = no_names; keeps = false }) }
    {
        let pending = mem::replace(&mut self.pending, NameTable::new(alloc));
        self.block.changes.push(Change::Cleared(pending))?;
        self.block.keeps = false;
        Ok(())
    }

    // Ends an `if`: what was pending before it may still be so if one of the blocks keeps it.
    pub(crate) fn keep_if(&mut self, alloc: Global, keeps: bool) -> Result<(), Memory>
        ensures { OnOk result (walk_state self.new ≡ record (walk_state self.old) { names = names_if keeps (walk_state self.old).names; keeps = keeps && (walk_state self.old).keeps }) }
    {
        if !keeps {
            self.sync(alloc)?;
        }
        Ok(())
    }

    // Begins a block. Returns the block around it, which `leave` takes back.
    pub(crate) fn enter(&mut self, alloc: Global) -> Block
        ensures outer { result ≡ self.old.block }
        ensures state { walk_state self.new ≡ record (walk_state self.old) { keeps = true; before = pending_in self.old } }
    {
        let inner = Block {
            changes: Vec::new(alloc),
            keeps: true,
        };
        mem::replace(&mut self.block, inner)
    }

    // Ends a block: what was pending at its start is so again. Returns whether it may still be so after the block.
    pub(crate) fn leave(&mut self, outer: Block) -> bool
        ensures keeps { result ≡ self.old.block.keeps }
        ensures state { walk_state self.new ≡ record (walk_state self.old) {
          names = (walk_state self.old).before;
          keeps = outer.keeps;
          before = undone outer.changes.items (walk_state self.old).before;
        } }
    {
        while let Some(change) = self.block.changes.pop() {
            self.undo(change);
        }
        mem::replace(&mut self.block, outer).keeps
    }

    // Undoes one change.
    fn undo(&mut self, change: Change)
        ensures known { known_in self.new ≡ known_in self.old }
        ensures names { pending_in self.new ≡ undo change (pending_in self.old) }
        ensures block { self.new.block ≡ self.old.block }
    {
        match change {
            Change::Added(name) => self.pending.remove(name.as_slice()),
            Change::Cleared(pending) => self.pending = pending,
        }
    }
}
