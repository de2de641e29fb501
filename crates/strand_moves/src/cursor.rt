// Positions in a block: a function's body, or a scope's block.

ghost use Rattle.std.specs.Prelude.{◌≡◌, List, [], ◌∷◌, ◌++◌, IfOk, OnOk, MatchOption, if◌then◌else◌};
ghost use Rattle.std.specs.Option.{option_copied};
ghost use Rattle.script_grammar.specs.declared.tree.Stmt.{Stmt, out-Stmt};
ghost use Rattle.script_grammar.specs.declared.tree.Act.{out-Act};
ghost use Rattle.strand_moves.specs.declared.cursor.Branch.TheVariants as branch;
ghost use Rattle.strand_moves.specs.Cursors.{branch_of, block_in, block_of, Enters, HasEntered, IsAround, statements_left, scope_after, scope_of, IsAfterStatement, PassesStatement};

use crate::memory::Memory;
use crate::narrow::narrowed;
use script_grammar::{Act, Expr, Stmt};
use smallvec::SmallVec;
use std::alloc::Global;

// A block of a statement: one of the two of an `if`, or a loop's body.
#[derive(Clone, Copy, Debug, Default, PartialEq, Eq)]
pub(crate) enum Branch {
    #[default]
    Yes,
    No,
    LoopBody,
}

// A block that was entered, and the index at which the enclosing block goes on: at a loop itself, and after an `if`.
#[derive(Clone, Copy, Debug, Default, PartialEq, Eq)]
pub(crate) struct Entered {
    pub(crate) branch: Branch,
    pub(crate) back: u32,
}

// A position in a function's body or a scope's block: the blocks that were entered, the outermost first, two of them
// without memory, and the index in the innermost one.
#[derive(Drop)]
pub(crate) struct Cursor {
    pub(crate) entered: SmallVec<Entered, 2>,
    pub(crate) next: usize,
}

// A statement's block; empty where it has no such block.
fn branch_in<'a>(statement: &'a Stmt, branch: Branch) -> &'a [Stmt]
    ensures { result.now ≡ branch_of (out-Act (out-Stmt statement.now).act) branch }
{
    match branch {
        Branch::Yes => match &statement.act {
            Act::If(_, yes, _) => yes.as_slice(),
            _ => &[],
        },
        Branch::No => match &statement.act {
            Act::If(_, _, no) => no.as_slice(),
            _ => &[],
        },
        Branch::LoopBody => match &statement.act {
            Act::While(_, body) => body.as_slice(),
            _ => &[],
        },
    }
}

// A scope's block; empty where the statement isn't a scope.
fn scope_in<'a>(statement: &'a Stmt) -> &'a [Stmt]
    ensures { result.now ≡ scope_of (out-Act (out-Stmt statement.now).act) }
{
    match &statement.act {
        Act::Scope(block) => block.as_slice(),
        _ => &[],
    }
}

// The block that was entered from this one.
fn block_in<'a>(block: &'a [Stmt], entered: Entered) -> &'a [Stmt]
    ensures { result.now ≡ block_in block.now entered }
{
    let place = match entered.branch {
        Branch::LoopBody => entered.back as usize,
        Branch::Yes | Branch::No => (entered.back as usize).saturating_sub(1),
    };
    match block.get(place) {
        Some(statement) => branch_in(statement, entered.branch),
        None => &[],
    }
}

// The innermost block.
fn innermost<'a>(body: &'a [Stmt], entered: &[Entered]) -> &'a [Stmt]
    ensures { result.now ≡ block_of body.now entered.now }
{
    let mut block = body;
    for e in entered {
        block = block_in(block, *e);
    }
    block
}

impl Cursor {
    // Before a body's first statement.
    pub(crate) fn new(alloc: Global) -> Cursor
        ensures { (body : List Stmt) → statements_left body result ≡ body }
    {
        Cursor {
            entered: SmallVec::new(alloc),
            next: 0,
        }
    }

    // The innermost block of this body.
    pub(crate) fn block<'a>(&self, body: &'a [Stmt]) -> &'a [Stmt]
        ensures { result.now ≡ block_of body.now self.now.entered.items }
    {
        innermost(body, self.entered.as_slice())
    }

    // The same, with the condition of the loop if the block is a loop's body.
    #[inline(always)]
    pub(crate) fn loop_around<'a>(&self, body: &'a [Stmt]) -> (&'a [Stmt], Option<&'a Expr>)
        ensures block { result.0.now ≡ block_of body.now self.now.entered.items }
        ensures around { IsAround body.now self.now (option_copied result.1) }
    {
        let [around @ .., last] = self.entered.as_slice() else {
            return (body, None);
        };
        let block = innermost(body, around);
        if let Branch::LoopBody = last.branch {
            if let Some(statement) = block.get(last.back as usize) {
                if let Act::While(condition, inner) = &statement.act {
                    return (inner.as_slice(), Some(condition));
                }
            }
        }
        (block_in(block, *last), None)
    }

    // The block of this statement that the cursor has just entered, with the condition if it is a loop's body.
    #[inline(always)]
    pub(crate) fn entered_block<'a>(&self, statement: &'a Stmt) -> (&'a [Stmt], Option<&'a Expr>)
        ensures block { (body : List Stmt) → HasEntered body self.now statement.now → result.0.now ≡ block_of body self.now.entered.items }
        ensures around { (body : List Stmt) → HasEntered body self.now statement.now → IsAround body self.now (option_copied result.1) }
    {
        let [.., last] = self.entered.as_slice() else {
            return (&[], None);
        };
        let block = branch_in(statement, last.branch);
        if let Branch::LoopBody = last.branch {
            if let Act::While(condition, _) = &statement.act {
                return (block, Some(condition));
            }
        }
        (block, None)
    }

    // Moves past the next statement of this body, and returns it.
    pub(crate) fn pass_next<'a>(&mut self, body: &'a [Stmt]) -> Option<&'a Stmt>
        ensures { MatchOption result ((statements_left body.now self.old ≡ []) × (statements_left body.now self.new ≡ [])) (λ st. PassesStatement body.now self.old self.new st.now) }
    {
        let block = self.block(body);
        self.pass_out(body, block)
    }

    // The same where the caller has the innermost block, with the condition if it is known to be a loop's body. Also
    // returns these of where the cursor then is.
    #[inline(always)]
    pub(crate) fn pass_in<'a>(
        &mut self,
        body: &'a [Stmt],
        block: &'a [Stmt],
        around: Option<&'a Expr>,
    ) -> Option<(&'a Stmt, &'a [Stmt], Option<&'a Expr>)>
        requires block { block.now ≡ block_of body.now self.old.entered.items }
        requires around { IsAround body.now self.old (option_copied around) }
        ensures { MatchOption result ((statements_left body.now self.old ≡ []) × (statements_left body.now self.new ≡ []))
            (λ r. PassesStatement body.now self.old self.new r.0.now × (r.1.now ≡ block_of body.now self.new.entered.items) × IsAround body.now self.new (option_copied r.2)) }
    {
        if let Some(statement) = block.get(self.next) {
            self.next += 1;
            return Some((statement, block, around));
        }
        if self.entered.as_slice().is_empty() {
            return None;
        }
        let Some(statement) = self.pass_out(body, block) else {
            return None;
        };
        let inside = self.loop_around(body);
        Some((statement, inside.0, inside.1))
    }

    // The same, also where that block has no statement left.
    #[inline(always)]
    fn pass_out<'a>(&mut self, body: &'a [Stmt], block: &'a [Stmt]) -> Option<&'a Stmt>
        requires { block.now ≡ block_of body.now self.old.entered.items }
        ensures { MatchOption result ((statements_left body.now self.old ≡ []) × (statements_left body.now self.new ≡ [])) (λ st. PassesStatement body.now self.old self.new st.now) }
    {
        let mut block = block;
        loop {
            if let Some(statement) = block.get(self.next) {
                self.next += 1;
                return Some(statement);
            }
            match self.entered.pop() {
                Some(last) => self.next = last.back as usize,
                None => return None,
            }
            block = innermost(body, self.entered.as_slice());
        }
    }

    // The block of the scope that the cursor has just passed; empty where it passed none.
    pub(crate) fn scope_block<'a>(&self, body: &'a [Stmt]) -> &'a [Stmt]
        ensures { result.now ≡ scope_after body.now self.now }
    {
        let block = innermost(body, self.entered.as_slice());
        match block.get(self.next.saturating_sub(1)) {
            Some(statement) => scope_in(statement),
            None => &[],
        }
    }

    // Moves back before the statement that it has just passed.
    pub(crate) fn back(&mut self)
        ensures { (body : List Stmt) (st : Stmt) → IsAfterStatement body self.old st → statements_left body self.new ≡ st ∷ statements_left body self.old }
    {
        self.next = self.next.saturating_sub(1);
    }

    // Enters a block of the `if` that it has just passed.
    pub(crate) fn enter(&mut self, yes: bool) -> Result<(), Memory>
        ensures left { IfOk result (λ _. (body : List Stmt) (st : Stmt) → IsAfterStatement body self.old st →
            statements_left body self.new ≡ branch_of (out-Act (out-Stmt st).act) (if yes then branch.Yes else branch.No) ++ statements_left body self.old) }
        ensures enters { OnOk result (Enters self.old self.new) }
    {
        let back = narrowed(self.next)?;
        self.entered.push(Entered {
            branch: if yes { Branch::Yes } else { Branch::No },
            back,
        })?;
        self.next = 0;
        Ok(())
    }

    // Enters the body of the loop that it has just passed. After the body it is before the loop again.
    pub(crate) fn enter_loop(&mut self) -> Result<(), Memory>
        ensures left { IfOk result (λ _. (body : List Stmt) (st : Stmt) → IsAfterStatement body self.old st →
            statements_left body self.new ≡ branch_of (out-Act (out-Stmt st).act) branch.LoopBody ++ (st ∷ statements_left body self.old)) }
        ensures enters { OnOk result (Enters self.old self.new) }
    {
        let back = narrowed(self.next.saturating_sub(1))?;
        self.entered.push(Entered {
            branch: Branch::LoopBody,
            back,
        })?;
        self.next = 0;
        Ok(())
    }
}
