ghost use Rattle.std.specs.Prelude.{◌<◌};

use super::same;
use ped_path::{Memory, Ped, PedTextError, Pedigree, parse_pedigree, write_pedigree};
use std::alloc::{AllocError, Global};
use std::process::Abort;
use std::test::Fail;

// The path of these ranks.
fn path(alloc: Global, ranks: &[u32]) -> Result<Ped, Memory> {
    let mut path = Ped::root(alloc)?;
    for &rank in ranks {
        path = path.child(alloc, rank as u64)?;
    }
    Ok(path)
}

// In serial order.
static PATHS: [&[u32]; 4] = [&[], &[3], &[3, 0], &[3, 1]];

// The path is the list of these ranks.
fn is_path(rt: &impl Abort, it: &Ped, ranks: &[u32]) {
    same(rt, "length", it.len(), ranks.len() as u64);
    for i in 0..ranks.len() {
        same(rt, i, it.rank_at(i as u64), Some(ranks[i] as u64));
    }
    same(rt, "after", it.rank_at(it.len()), None);
}

// The example at the head of `ped_path`.
#[test]
fn a_childs_strands_come_before_its_parents_next(rt: HostRuntime) -> Result<(), Fail> {
    let path = Ped::root(rt.alloc())?.child(rt.alloc(), 3)?;
    let first = Pedigree { path, rank: 0 };
    let next = parse_pedigree(rt.alloc(), "4")?;
    assert!(rt; first.same(&parse_pedigree(rt.alloc(), "3.0")?));
    assert!(rt; first.before(&next));
    assert!(rt; !next.before(&first));
    Ok(())
}

fn is_copied(it: &Ped) -> Result<bool, Memory> {
    Ok(it.same(&it.share()?))
}

#[test]
fn paths_are_lists_of_ranks(rt: HostRuntime) -> Result<(), Fail> {
    for &ranks in &PATHS {
        let it = path(rt.alloc(), ranks)?;
        is_path(&rt, &it, ranks);
        same(&rt, "copy", is_copied(&it)?, true);
    }
    Ok(())
}

// Whether the path of the first ranks stands before that of the second, and whether they are the same.
fn paths_compared(alloc: Global, first: &[u32], second: &[u32]) -> Result<(bool, bool), Memory> {
    let left = path(alloc, first)?;
    let right = path(alloc, second)?;
    Ok((left.before(&right), left.same(&right)))
}

#[test]
fn paths_stand_in_serial_order(rt: HostRuntime) -> Result<(), Fail> {
    for i in 0..PATHS.len() {
        for k in 0..PATHS.len() {
            let order = paths_compared(rt.alloc(), PATHS[i], PATHS[k])?;
            same(&rt, format_args!("{i} and {k}"), order, (i < k, i == k));
        }
    }
    Ok(())
}

static ORDERED: [&str; 4] = ["0", "0.0", "0.1", "1"];

// Whether the first pedigree stands before the second, and whether they are the same.
fn compared(alloc: Global, first: &str, second: &str) -> Result<(bool, bool), PedTextError> {
    let left = parse_pedigree(alloc, first)?;
    let right = parse_pedigree(alloc, second)?;
    Ok((left.before(&right), left.same(&right)))
}

#[test]
fn pedigrees_stand_in_serial_order(rt: HostRuntime) -> Result<(), Fail> {
    for i in 0..ORDERED.len() {
        for k in 0..ORDERED.len() {
            let order = compared(rt.alloc(), ORDERED[i], ORDERED[k])?;
            same(&rt, format_args!("{i} and {k}"), order, (i < k, i == k));
        }
    }
    Ok(())
}

// Whether a copy of this pedigree is the same.
fn is_copied_pedigree(alloc: Global, text: &str) -> Result<bool, PedTextError> {
    let j = parse_pedigree(alloc, text)?;
    Ok(j.same(&j.share()?))
}

#[test]
fn a_copy_of_a_pedigree_is_the_same(rt: HostRuntime) -> Result<(), Fail> {
    for &text in &ORDERED {
        same(&rt, text, is_copied_pedigree(rt.alloc(), text)?, true);
    }
    Ok(())
}

// Before the path 1.2 stand 0.5, 1 and 1.1; 1.2 itself, 1.2.0 and 1.3 don't.
static BEFORE_A_PATH: [(&str, bool); 6] = [
    ("0.5", true),
    ("1", true),
    ("1.1", true),
    ("1.2", false),
    ("1.2.0", false),
    ("1.3", false),
];

fn is_before(alloc: Global, text: &str, path: &Ped) -> Result<bool, PedTextError> {
    Ok(parse_pedigree(alloc, text)?.before_path(path))
}

#[test]
fn pedigrees_stand_before_a_path(rt: HostRuntime) -> Result<(), Fail> {
    let path = path(rt.alloc(), &[1, 2])?;
    for &(text, stands_before) in &BEFORE_A_PATH {
        let before = is_before(rt.alloc(), text, &path)?;
        same(&rt, text, before, stands_before);
    }
    Ok(())
}

// Whether the path of the first ranks begins with that of the second.
fn begins(alloc: Global, first: &[u32], second: &[u32]) -> Result<bool, Memory> {
    Ok(path(alloc, first)?.begins_with(&path(alloc, second)?))
}

#[test]
fn paths_begin_with_their_fronts(rt: HostRuntime) -> Result<(), Fail> {
    for i in 0..PATHS.len() {
        for k in 0..PATHS.len() {
            let begins = begins(rt.alloc(), PATHS[i], PATHS[k])?;
            same(
                &rt,
                format_args!("{i} and {k}"),
                begins,
                k <= i && i + k != 5,
            );
        }
    }
    Ok(())
}

// Pedigrees with others with which they begin, or don't.
static FRONTS: [(&str, &str, bool); 5] = [
    ("1.2", "1", true),
    ("1.2", "1.2", true),
    ("1.2", "1.2.0", false),
    ("1.2", "1.3", false),
    ("12", "1", false),
];

fn goes_on(alloc: Global, text: &str, front: &str) -> Result<(bool, bool), PedTextError> {
    let at = parse_pedigree(alloc, text)?;
    let front = parse_pedigree(alloc, front)?;
    let path = front.path.child(alloc, front.rank)?;
    Ok((at.goes_on_from(&front), at.begins_with(&path)))
}

#[test]
fn pedigrees_begin_with_their_fronts(rt: HostRuntime) -> Result<(), Fail> {
    for &(text, front, wanted) in &FRONTS {
        let goes_on = goes_on(rt.alloc(), text, front)?;
        same(
            &rt,
            format_args!("{text} and {front}"),
            goes_on,
            (wanted, wanted),
        );
    }
    Ok(())
}

// The path of so many ranks: 1001, 1002 and so on.
fn counted(alloc: Global, len: u64) -> Result<Ped, Memory>
    requires { len < 65536 }
{
    let mut path = Ped::root(alloc)?;
    for i in 0..len {
        path = path.child(alloc, 1001 + i)?;
    }
    Ok(path)
}

// The path is that of so many ranks.
fn is_counted(rt: &impl Abort, path: &Ped, len: u64)
    requires { len < 65536 }
{
    same(rt, "length", path.len(), len);
    for i in 0..len {
        same(rt, i, path.rank_at(i), Some(1001 + i));
    }
    same(rt, "after", path.rank_at(len), None);
}

// The lengths about the end of a block of 16 ranks.
#[test]
fn long_paths_are_lists_of_ranks(rt: HostRuntime) -> Result<(), Fail> {
    for len in 1..=49 {
        is_counted(&rt, &counted(rt.alloc(), len)?, len);
    }
    Ok(())
}

// Whether the path of so many ranks stands before that of so many others, and whether they are the same.
fn counted_compared(alloc: Global, first: u64, second: u64) -> Result<(bool, bool), Memory>
    requires first { first < 65536 }
    requires second { second < 65536 }
{
    let left = counted(alloc, first)?;
    let right = counted(alloc, second)?;
    Ok((left.before(&right), left.same(&right)))
}

#[test]
fn long_paths_stand_in_serial_order(rt: HostRuntime) -> Result<(), Fail> {
    let alloc = rt.alloc();
    for len in 1..=49 {
        same(&rt, len, counted_compared(alloc, len - 1, len)?.0, true);
        same(&rt, len, counted_compared(alloc, len, len + 1)?.0, true);
        same(&rt, len, counted_compared(alloc, len, len)?.1, true);
    }
    Ok(())
}

// What stands in the output before, the ranks, and what stands there afterwards.
static TEXTS: [(&str, &[u32], u32, &str); 2] = [
    ("at ", &[0, 4_294_967_295], 10, "at 0.4294967295.10"),
    ("", &[], 7, "7"),
];

// What stands in the output, where this stood before, once the pedigree is written.
fn written(alloc: Global, before: &str, j: &Pedigree) -> Result<Vec<u8>, Fail> {
    let mut out = Vec::from_slice(alloc, before.as_bytes())?;
    write_pedigree(j, &mut out)?;
    Ok(out)
}

#[test]
fn texts_join_the_ranks_by_full_stops(rt: HostRuntime) -> Result<(), Fail> {
    for &(before, ranks, rank, after) in &TEXTS {
        let path = path(rt.alloc(), ranks)?;
        let rank = rank as u64;
        let out = written(rt.alloc(), before, &Pedigree { path, rank })?;
        same(&rt, after, out.as_slice(), after.as_bytes());
    }
    Ok(())
}

static REFUSED: [(&str, PedTextError); 10] = [
    ("", PedTextError::Empty),
    ("0..1", PedTextError::BadByte(2)),
    ("0.", PedTextError::BadByte(2)),
    (".1", PedTextError::BadByte(0)),
    ("1 ", PedTextError::BadByte(1)),
    ("+1", PedTextError::BadByte(0)),
    ("01", PedTextError::Zeros(0)),
    ("7.00", PedTextError::Zeros(2)),
    ("4294967296", PedTextError::TooBig(0)),
    ("1.99999999999999999999999x", PedTextError::TooBig(2)),
];

#[test]
fn other_texts_are_refused_where_they_go_wrong(rt: HostRuntime) {
    for &(text, error) in &REFUSED {
        let refusal = parse_pedigree(rt.alloc(), text).err();
        same(&rt, text, refusal, Some(error));
    }
}

static READ_TEXTS: [(&str, &[u32]); 3] = [
    ("3.1", &[3, 1]),
    ("0.1", &[0, 1]),
    ("4294967295", &[4_294_967_295]),
];

// The pedigree is the list of these ranks.
fn is_pedigree(rt: &impl Abort, j: &Pedigree, ranks: &[u32]) {
    same(rt, "length", j.len(), ranks.len() as u64);
    for i in 0..ranks.len() {
        same(rt, i, j.rank_at(i as u64), Some(ranks[i] as u64));
    }
    same(rt, "after", j.rank_at(j.len()), None);
}

#[test]
fn texts_of_pedigrees_are_read(rt: HostRuntime) -> Result<(), Fail> {
    for &(text, ranks) in &READ_TEXTS {
        is_pedigree(&rt, &parse_pedigree(rt.alloc(), text)?, ranks);
    }
    Ok(())
}

// The text of 512 ranks, with this after it.
fn of_512_ranks(alloc: Global, after: &str) -> Result<String, AllocError> {
    let mut text = String::from_str(alloc, "0")?;
    for _ in 0..511 {
        text.push_str(".0")?;
    }
    text.push_str(after)?;
    Ok(text)
}

#[test]
fn texts_have_at_most_512_ranks(rt: HostRuntime) -> Result<(), Fail> {
    let alloc = rt.alloc();
    for (after, wanted) in [("", Ok(512)), (".", Err(PedTextError::TooLong))] {
        let text = of_512_ranks(alloc, after)?;
        let read = parse_pedigree(alloc, text.as_str()).map(|j| j.len());
        same(&rt, after, read, wanted);
    }
    Ok(())
}
