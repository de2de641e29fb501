// Origins: copies of them, their paths, and the iterations of loops.
ghost use Rattle.std.specs.Prelude.{◌≡◌, [], ◌∷◌, IfOk, pos};
ghost use Rattle.std.specs.Int.{int_wrapping_add, w64};
ghost use Rattle.serial_meaning.specs.declared.value.Value.TheVariants.{Int};
ghost use Rattle.serial_meaning.specs.Eval.{path_of};
ghost use Rattle.strand_family.specs.Origins.{loop_part};

use crate::memory::Memory;
use contract_views::Items;
use loop_range::IterRange;
use ped_path::Ped;
use serial_meaning::{Origin, Value};
use std::alloc::Global;

/// The same values, sharing their memory.
#[inline(always)]
pub fn share_values(alloc: Global, values: &[Value]) -> Result<Items<Value>, Memory>
    ensures { IfOk result (λ shared. shared ≡ values.now) }
{
    let mut shared = Vec::with_capacity(alloc, values.len())?;
    for value in values {
        shared.push(value.share()?)?;
    }
    Ok(Items(shared))
}

/// The same origin. Its path shares its memory.
#[inline(always)]
pub fn share_origin(alloc: Global, origin: &Origin) -> Result<Origin, Memory>
    ensures { IfOk result (λ shared. shared ≡ origin.now) }
{
    Ok(match origin {
        Origin::Instance {
            function,
            args,
            path,
        } => Origin::Instance {
            function: *function,
            args: share_values(alloc, args.as_slice())?,
            path: path.share()?,
        },
        Origin::Loop {
            function,
            rest,
            first,
            path,
            range,
        } => Origin::Loop {
            function: *function,
            rest: share_values(alloc, rest.as_slice())?,
            first: *first,
            path: path.share()?,
            range: *range,
        },
    })
}

/// The path of an origin.
pub fn path(origin: &Origin) -> &Ped
    ensures { result.now ≡ path_of origin.now }
{
    match origin {
        Origin::Instance { path, .. } => path,
        Origin::Loop { path, .. } => path,
    }
}

/// The arguments of iteration `k` of a loop, whose other arguments these are: its number, and then the others, sharing their
/// memory.
pub fn iteration_args(
    alloc: Global,
    first: i64,
    rest: &[Value],
    k: u64,
) -> Result<Items<Value>, Memory>
    ensures { IfOk result (λ args. args ≡ Int (int_wrapping_add w64 first (pos k)) ∷ rest.now) }
{
    iteration_args_in(first, rest, k, Items(Vec::new(alloc)))
}

/// The same, as the items of `list`, which has none yet: its memory is used again.
pub fn iteration_args_in(
    first: i64,
    rest: &[Value],
    k: u64,
    list: Items<Value>,
) -> Result<Items<Value>, Memory>
    requires { list ≡ [] }
    ensures { IfOk result (λ args. args ≡ Int (int_wrapping_add w64 first (pos k)) ∷ rest.now) }
{
    let mut args = list.0;
    args.push(Value::Int(first.wrapping_add_unsigned(k)))?;
    for value in rest {
        args.push(value.share()?)?;
    }
    Ok(Items(args))
}

/// A loop's origin with only these of its iterations.
#[inline(always)]
pub fn part_of(alloc: Global, origin: &Origin, range: IterRange) -> Result<Origin, Memory>
    ensures { IfOk result (λ part. part ≡ loop_part origin.now range) }
{
    match origin {
        Origin::Instance { .. } => share_origin(alloc, origin),
        Origin::Loop {
            function,
            rest,
            first,
            path,
            ..
        } => Ok(Origin::Loop {
            function: *function,
            rest: share_values(alloc, rest.as_slice())?,
            first: *first,
            path: path.share()?,
            range,
        }),
    }
}
