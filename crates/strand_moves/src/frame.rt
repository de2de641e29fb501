// Frames.

ghost use Rattle.std.specs.Prelude.{◌≡◌, reverse};
ghost use Rattle.std.specs.Option.{option_copied};
ghost use Rattle.script_grammar.specs.declared.tree.Stmt.{Stmt};
ghost use Rattle.strand_moves.specs.Acts.{IsCallee};
ghost use Rattle.strand_moves.specs.InstanceParts.{block_inside, body_of, statements_of};

use crate::cursor::Cursor;
use crate::levels::Levels;
use dotmix::Trail;
use script_grammar::{Name, Stmt};
use serial_meaning::{Fault, Plan};
use std::alloc::Global;
use strand_values::{Environment, EnvironmentPool, Target};

// An open scope.
#[derive(Drop)]
pub(crate) struct Level {
    // The trail of the path around it.
    pub(crate) trail: Trail,
    // The rank of the strand that began it.
    pub(crate) rank: u64,
    // The position after it in the block around it.
    pub(crate) cursor: Cursor,
}

// A function under way.
#[derive(Drop)]
pub(crate) struct Frame {
    // Its function's index in the script.
    pub(crate) function: u32,
    // Whether its return is paid, and the sync that this implies is past.
    pub(crate) returning: bool,
    // Whether it spawned since its last sync.
    pub(crate) spawned: bool,
    // Its open scopes, the outermost first.
    pub(crate) levels: Levels,
    // The position in the innermost scope, or in the function's body.
    pub(crate) cursor: Cursor,
    pub(crate) env: Environment,
    // The least fault among the answers taken from its children since its last sync.
    pub(crate) faulted: Option<Fault>,
    // The variable of the frame below that takes its value.
    pub(crate) target: Option<Target>,
}

impl Frame {
    // A function with these variables before its first statement.
    pub(crate) fn new(alloc: Global, number: u32, env: Environment, target: Option<Target>) -> Frame
        ensures { IsCallee number env target result }
    {
        Frame {
            function: number,
            returning: false,
            spawned: false,
            levels: Levels::none(),
            cursor: Cursor::new(alloc),
            env,
            faulted: None,
            target,
        }
    }

    // Drops a frame that has ended. The list of its variables goes to the pool.
    #[inline(always)]
    pub(crate) fn discard(self, pool: &mut EnvironmentPool)
        ensures { pool.new ≡ pool.old }
    {
        let Frame {
            levels,
            cursor,
            env,
            faulted,
            ..
        } = self;
        levels.discard();
        drop(cursor);
        drop(faulted);
        env.discard(pool);
    }

    // The statements that its cursor is in: its function's body, or the block of its innermost open scope.
    #[inline(always)]
    pub(crate) fn statements<'a>(&self, plan: &'a Plan) -> &'a [Stmt]
        ensures { result.now ≡ statements_of plan.now self.now }
    {
        block_inside(body(plan, self.function), self.levels.as_slice())
    }
}

// The block of the innermost of these scopes, which are open in a function of this body.
#[inline(always)]
fn block_inside<'a>(body: &'a [Stmt], levels: &[Level]) -> &'a [Stmt]
    ensures { result.now ≡ block_inside body.now (reverse levels.now) }
{
    let mut block = body;
    for level in levels {
        block = level.cursor.scope_block(block);
    }
    block
}

// The statements of the function with this index; empty where there is none.
pub(crate) fn body(plan: &Plan, function: u32) -> &[Stmt]
    ensures { result.now ≡ body_of plan.now function }
{
    match plan.functions().get(function as usize) {
        Some(f) => f.body.as_slice(),
        None => &[],
    }
}

// The target with this name, if there is one.
pub(crate) fn target_of(name: Option<&Name>) -> Option<Target>
    ensures { result ≡ option_copied name.entry }
{
    match name {
        Some(name) => Some(Target::of(name)),
        None => None,
    }
}
