use super::same;
use contract_views::Items;
use loop_range::IterRange;
use ped_path::{Ped, Pedigree};
use serial_meaning::{
    All, Event, EventKind, Fault, FaultKind, Keep, Lined, Memory, Origin, Out, Prints, Strand,
    Value, render_strand,
};
use std::alloc::Global;
use std::ops::Range;
use std::test::Fail;

// The pedigree of the strand with this rank in main's instance.
fn strand(alloc: Global, rank: u32) -> Result<Pedigree, Memory> {
    Ok(Pedigree {
        path: Ped::root(alloc)?,
        rank: rank as u64,
    })
}

// The event of this rank, each of another kind.
fn event(rank: u32, at: Pedigree) -> Event {
    match rank {
        0 => Event::Print(at, Value::Int(-3)),
        1 => Event::Draw(at, 21),
        2 => Event::New(at),
        3 => Event::Spawn(at),
        4 => Event::Sync(at),
        _ => Event::Loop(at),
    }
}

// An event of each kind, at the ranks from 0 to 5.
fn each_kind<K: Keep>(alloc: Global) -> Result<Out<K>, Memory> {
    let mut events = Out::none();
    for rank in 0..6 {
        events.push(alloc, event(rank, strand(alloc, rank)?))?;
    }
    Ok(events)
}

fn events(alloc: Global) -> Result<Out, Memory> {
    each_kind(alloc)
}

// The strand of these events, with a fault at the rank 6.
fn faulty(alloc: Global) -> Result<Strand, Memory> {
    let events = events(alloc)?;
    let at = strand(alloc, 6)?;
    let kind = FaultKind::Index;
    let fault = Some(Fault { kind, at });
    Ok(Strand { events, fault })
}

#[test]
fn a_strand_prints_a_line_of_each_event_and_its_fault(rt: HostRuntime) -> Result<(), Fail> {
    let strand = faulty(rt.alloc())?;
    same(
        &rt,
        "lines",
        render_strand(rt.alloc(), &strand)?.as_slice(),
        b"-3\ndraw 1 = 21\nnew 2\nspawn 3\nsync 4\nloop 5\nfault 6: index out of range\n".as_slice(),
    );
    Ok(())
}

// The objects of these ranks.
fn objects(alloc: Global, ranks: Range<u32>) -> Result<Out, Memory> {
    let mut events = Out::new();
    for rank in ranks {
        events.push(alloc, Event::New(strand(alloc, rank)?))?;
    }
    Ok(events)
}

// The objects of the ranks from 0 to 5, appended two by two, with no events between.
fn appended(alloc: Global) -> Result<Out, Memory> {
    let mut all = Out::new();
    for part in 0u32..3 {
        all.append(objects(alloc, part * 2..part * 2 + 2)?)?;
        all.append(Out::new())?;
    }
    Ok(all)
}

// The rank of the object that is event number `i`.
fn rank_of(events: &Out, i: u64) -> Option<u64> {
    match events.get(i) {
        Some(Event::New(at)) => Some(at.rank),
        _ => None,
    }
}

#[test]
fn appended_events_stand_after_the_others(rt: HostRuntime) -> Result<(), Fail> {
    let all = appended(rt.alloc())?;
    same(&rt, "length", all.len(), 6);
    for i in 0u64..6 {
        same(&rt, i, rank_of(&all, i), Some(i));
    }
    assert!(rt; all.get(6).is_none());
    Ok(())
}

// How many events each full chunk has, and then the last one.
fn lengths(alloc: Global, events: &Out) -> Result<Vec<usize>, Memory> {
    let mut lengths = Vec::new(alloc);
    if let Some((full, last)) = events.chunks() {
        for chunk in full {
            lengths.push(chunk.events().len())?;
        }
        lengths.push(last.len())?;
    }
    Ok(lengths)
}

// The objects of the ranks from 0 to 31, appended to the first 20.
fn long(alloc: Global) -> Result<Out, Memory> {
    let mut all = objects(alloc, 0..20)?;
    all.append(objects(alloc, 20..30)?)?;
    all.append(objects(alloc, 30..32)?)?;
    Ok(all)
}

// Ten events are more than are ever copied.
#[test]
fn a_long_list_is_appended_without_a_copy(rt: HostRuntime) -> Result<(), Fail> {
    let lengths = lengths(rt.alloc(), &long(rt.alloc())?)?;
    same(
        &rt,
        "chunks",
        lengths.as_slice(),
        [10usize, 10, 10, 2].as_slice(),
    );
    Ok(())
}

#[test]
fn one_event_goes_before_a_list_that_stays(rt: HostRuntime) -> Result<(), Fail> {
    let mut all = objects(rt.alloc(), 0..1)?;
    all.append(objects(rt.alloc(), 1..20)?)?;
    same(&rt, "length", all.len(), 20);
    for i in 0u64..20 {
        same(&rt, i, rank_of(&all, i), Some(i));
    }
    same(
        &rt,
        "chunks",
        lengths(rt.alloc(), &all)?.as_slice(),
        [11usize, 9].as_slice(),
    );
    Ok(())
}

// The objects of the ranks from 0 to 59, in three lists of 20.
fn in_three(alloc: Global) -> Result<Out, Memory> {
    let mut all = Out::new();
    for part in 0u32..3 {
        all.append(objects(alloc, part * 20..part * 20 + 20)?)?;
    }
    Ok(all)
}

#[test]
fn an_event_is_found_in_its_chunk(rt: HostRuntime) -> Result<(), Fail> {
    let all = in_three(rt.alloc())?;
    for i in [19u64, 20, 25, 59] {
        same(&rt, i, rank_of(&all, i), Some(i));
    }
    Ok(())
}

// A print, 20 objects, an event of each kind, and 20 objects.
fn printing(alloc: Global) -> Result<Out, Memory> {
    let mut rest = objects(alloc, 0..20)?;
    rest.append(events(alloc)?)?;
    rest.append(objects(alloc, 0..20)?)?;
    let mut all = Out::new();
    all.push(alloc, event(0, strand(alloc, 0)?))?;
    all.append(rest)?;
    Ok(all)
}

// Whether each full chunk has a print.
fn prints(alloc: Global, events: &Out) -> Result<Vec<bool>, Memory> {
    let mut prints = Vec::new(alloc);
    if let Some((full, _)) = events.chunks() {
        for chunk in full {
            prints.push(chunk.prints())?;
        }
    }
    Ok(prints)
}

#[test]
fn a_chunk_knows_whether_it_has_a_print(rt: HostRuntime) -> Result<(), Fail> {
    let prints = prints(rt.alloc(), &printing(rt.alloc())?)?;
    same(
        &rt,
        "prints",
        prints.as_slice(),
        [true, false, true, false].as_slice(),
    );
    Ok(())
}

// An event of each of these ranks: a print where it is even, and else an object.
fn alternating<K: Keep>(alloc: Global, ranks: Range<u32>) -> Result<Out<K>, Memory> {
    let mut events = Out::none();
    for rank in ranks {
        let at = strand(alloc, rank)?;
        let event = if rank % 2 == 0 {
            Event::Print(at, Value::Int(1))
        } else {
            Event::New(at)
        };
        events.push(alloc, event)?;
    }
    Ok(events)
}

// Those of the ranks below `middle`, and those up to `end` appended.
fn in_two<K: Keep>(alloc: Global, middle: u32, end: u32) -> Result<Out<K>, Memory> {
    let mut events = alternating(alloc, 0..middle)?;
    events.append(alternating(alloc, middle..end)?)?;
    Ok(events)
}

// The place of an event, whatever its kind.
fn place_of(event: &Event) -> &Pedigree {
    match event {
        Event::Print(at, _) | Event::Draw(at, _) => at,
        Event::New(at) | Event::Spawn(at) | Event::Sync(at) | Event::Loop(at) => at,
    }
}

// The ranks of these events, at the end of the others.
fn add_ranks(ranks: &mut Vec<u64>, events: &[Event]) -> Result<(), Memory> {
    for event in events {
        ranks.push(place_of(event).rank)?;
    }
    Ok(())
}

// The ranks of the events that are kept.
fn kept_ranks<K: Keep>(alloc: Global, events: &Out<K>) -> Result<Vec<u64>, Memory> {
    let mut ranks = Vec::new(alloc);
    if let Some((full, last)) = events.kept_chunks() {
        for chunk in full {
            add_ranks(&mut ranks, chunk.events())?;
        }
        add_ranks(&mut ranks, last)?;
    }
    Ok(ranks)
}

// Where the second list begins, where it ends, and the ranks of the prints.
static APPENDED: [(u32, u32, &[u64]); 13] = [
    (0, 0, &[]),
    (0, 1, &[0]),
    (0, 4, &[0, 2]),
    (1, 1, &[0]),
    (1, 2, &[0]),
    (1, 3, &[0, 2]),
    (1, 7, &[0, 2, 4, 6]),
    (2, 3, &[0, 2]),
    (4, 4, &[0, 2]),
    (4, 5, &[0, 2, 4]),
    (4, 8, &[0, 2, 4, 6]),
    (4, 24, &[0, 2, 4, 6, 8, 10, 12, 14, 16, 18, 20, 22]),
    (
        20,
        40,
        &[
            0, 2, 4, 6, 8, 10, 12, 14, 16, 18, 20, 22, 24, 26, 28, 30, 32, 34, 36, 38,
        ],
    ),
];

#[test]
fn a_list_of_prints_keeps_them_alone(rt: HostRuntime) -> Result<(), Fail> {
    for &(middle, end, prints) in &APPENDED {
        let events: Out<Prints> = in_two(rt.alloc(), middle, end)?;
        let kept = kept_ranks(rt.alloc(), &events)?;
        same(&rt, format_args!("{middle} {end}"), kept.as_slice(), prints);
        same(&rt, format_args!("length {end}"), events.len(), end as u64);
    }
    Ok(())
}

#[test]
fn a_list_of_lines_keeps_prints_draws_and_objects(rt: HostRuntime) -> Result<(), Fail> {
    let events: Out<Lined> = each_kind(rt.alloc())?;
    let kept = kept_ranks(rt.alloc(), &events)?;
    same(&rt, "kept", kept.as_slice(), [0, 1, 2].as_slice());
    same(&rt, "length", events.len(), 6);
    Ok(())
}

static KINDS: [EventKind; 5] = [
    EventKind::Draw(21),
    EventKind::New,
    EventKind::Spawn,
    EventKind::Sync,
    EventKind::Loop,
];

#[test]
fn a_list_of_lines_makes_draws_and_objects(rt: HostRuntime) -> Result<(), Fail> {
    let path = Ped::root(rt.alloc())?;
    let mut events: Out<Lined> = Out::none();
    for rank in 0..5u32 {
        events.push_at(rt.alloc(), &path, rank as u64, KINDS[rank as usize])?;
    }
    let kept = kept_ranks(rt.alloc(), &events)?;
    same(&rt, "kept", kept.as_slice(), [0, 1].as_slice());
    same(&rt, "length", events.len(), 5);
    Ok(())
}

// The numbers below `end`.
fn numbers(alloc: Global, end: u32) -> Result<Vec<u64>, Memory> {
    let mut numbers = Vec::new(alloc);
    for number in 0..end {
        numbers.push(number as u64)?;
    }
    Ok(numbers)
}

#[test]
fn a_list_of_all_events_keeps_each(rt: HostRuntime) -> Result<(), Fail> {
    for &(middle, end, _) in &APPENDED {
        let events: Out<All> = in_two(rt.alloc(), middle, end)?;
        let kept = kept_ranks(rt.alloc(), &events)?;
        let wanted = numbers(rt.alloc(), end)?;
        same(
            &rt,
            format_args!("{middle} {end}"),
            kept.as_slice(),
            wanted.as_slice(),
        );
        same(&rt, format_args!("length {end}"), events.len(), end as u64);
    }
    Ok(())
}

#[test]
fn a_shared_fault_is_the_same(rt: HostRuntime) -> Result<(), Fail> {
    let at = strand(rt.alloc(), 3)?;
    let kind = FaultKind::Calls;
    let fault = Fault { kind, at };
    assert!(rt; fault.share()?.at.same(&fault.at));
    Ok(())
}

#[test]
fn a_shared_object_is_the_same(rt: HostRuntime) -> Result<(), Fail> {
    let object = Value::Id(strand(rt.alloc(), 4)?);
    match object.share()? {
        Value::Id(at) => same(&rt, "rank", at.rank, 4),
        Value::Int(_) => assert!(rt; false),
    }
    Ok(())
}

// Iterations of a loop of the root strand, whose function has one more argument.
fn loop_origin(alloc: Global, number: i64, range: IterRange) -> Result<Origin, Memory> {
    let mut rest = Vec::new(alloc);
    rest.push(Value::Int(number))?;
    Ok(Origin::Loop {
        function: 0,
        rest: Items(rest),
        first: 0,
        path: Ped::root(alloc)?.child(alloc, 0)?,
        range,
    })
}

const WHOLE: IterRange = IterRange { lo: 0, hi: 4 };

const HALF: IterRange = IterRange { lo: 0, hi: 2 };

// Whether this is the origin of that loop.
fn is_loop(alloc: Global, origin: &Origin, number: i64, range: IterRange) -> Result<bool, Memory> {
    Ok(origin.same(&loop_origin(alloc, number, range)?))
}

#[test]
fn origins_are_the_same_where_all_fields_are(rt: HostRuntime) -> Result<(), Fail> {
    let origin = loop_origin(rt.alloc(), 7, WHOLE)?;
    for (number, range, is_same) in [(7, WHOLE, true), (8, WHOLE, false), (7, HALF, false)] {
        let found = is_loop(rt.alloc(), &origin, number, range)?;
        same(&rt, format_args!("{number} {range:?}"), found, is_same);
    }
    Ok(())
}

// The origin of main's instance.
fn main_origin(alloc: Global) -> Result<Origin, Memory> {
    Ok(Origin::Instance {
        function: 0,
        args: Items(Vec::new(alloc)),
        path: Ped::root(alloc)?,
    })
}

#[test]
fn a_loop_is_no_instance(rt: HostRuntime) -> Result<(), Fail> {
    let origin = loop_origin(rt.alloc(), 7, WHOLE)?;
    assert!(rt; !origin.same(&main_origin(rt.alloc())?));
    Ok(())
}
