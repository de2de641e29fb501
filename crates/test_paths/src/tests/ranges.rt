ghost use Rattle.std.specs.Prelude.{◌≤◌};

use super::same;
use loop_range::{IterRange, Memory, cover, iteration_path};
use ped_path::Ped;
use std::alloc::Global;
use std::test::Fail;

fn range(lo: u64, hi: u64) -> IterRange
    requires ordered { lo ≤ hi }
    requires in_range { hi ≤ 4294967295 }
{
    IterRange { lo, hi }
}

#[test]
fn ranges_of_two_or_more_are_split_in_the_middle(rt: HostRuntime) {
    let parts = (range(0, 2), range(2, 5));
    same(&rt, "0..1", range(0, 1).split(), None);
    same(&rt, "3..3", range(3, 3).split(), None);
    same(&rt, "0..5", range(0, 5).split(), Some(parts));
}

#[test]
fn parts_cover_where_none_is_left_out(rt: HostRuntime) {
    assert!(rt; cover(&[]));
    assert!(rt; cover(&[range(0, 2), range(2, 5)]));
    assert!(rt; !cover(&[range(0, 2), range(3, 5)]));
}

// The third iteration of a loop of the strand 4.
fn third(alloc: Global) -> Result<Ped, Memory> {
    let strand = Ped::root(alloc)?.child(alloc, 4)?;
    iteration_path(&strand, alloc, 2)
}

#[test]
fn iterations_stand_below_their_loop(rt: HostRuntime) -> Result<(), Fail> {
    let third = third(rt.alloc())?;
    same(&rt, "length", third.len(), 2);
    same(&rt, "rank 0", third.rank_at(0), Some(4));
    same(&rt, "rank 1", third.rank_at(1), Some(2));
    Ok(())
}
