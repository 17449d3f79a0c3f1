use amendments::{Amendable, AmendmentLayer};
use calendars::{Calendar, Target, target_calendar};
use dates::Day;
use day_cache::DayCache;
use faults::CalendarFault;
use std::process::Abort;
use std::test::Fail;
use tables::{Keyed, find, insert, remove, replace};

/// 28 March 2024, a good Thursday.
const THURSDAY: Day = Day(45_377);

/// 29 March 2024, Good Friday.
const GOOD_FRIDAY: Day = Day(45_378);

/// A layer of a number over the calendar of the program, without entries.
fn target_layer(number: u8) -> Result<AmendmentLayer<Target>, CalendarFault> {
    Ok(AmendmentLayer::new(target_calendar()?, number))
}

#[test]
fn good_day_closed_and_restored(rt: HostRuntime) -> Result<(), Fail> {
    let mut layer = target_layer(9)?;
    assert_eq!(rt; layer.entry_count(), 0);
    assert_eq!(rt; layer.is_entered(THURSDAY), Ok(false));
    assert_eq!(rt; layer.close(THURSDAY), Ok(()));
    assert_eq!(rt; layer.code(THURSDAY), Ok(9));
    assert_eq!(rt; layer.code_under(THURSDAY), Ok(0));
    assert_eq!(rt; layer.is_entered(THURSDAY), Ok(true));
    assert_eq!(rt; layer.is_entered(GOOD_FRIDAY), Ok(false));
    assert_eq!(rt; layer.entry_count(), 1);
    assert_eq!(rt; layer.restore(THURSDAY), Ok(()));
    assert_eq!(rt; layer.code(THURSDAY), Ok(0));
    assert_eq!(rt; layer.entry_count(), 0);
    assert_eq!(rt;
        layer.restore(THURSDAY),
        Err(CalendarFault::NotEntered(45_377))
    );
    Ok(())
}

#[test]
fn good_friday_opened_and_restored(rt: HostRuntime) -> Result<(), Fail> {
    let mut layer = target_layer(9)?;
    assert_eq!(rt; layer.code(GOOD_FRIDAY), Ok(3));
    assert_eq!(rt;
        layer.restore(GOOD_FRIDAY),
        Err(CalendarFault::NotEntered(45_378))
    );
    assert_eq!(rt; layer.open(GOOD_FRIDAY), Ok(()));
    assert_eq!(rt; layer.code(GOOD_FRIDAY), Ok(0));
    assert_eq!(rt; layer.is_good(GOOD_FRIDAY), Ok(true));
    assert_eq!(rt; layer.code_under(GOOD_FRIDAY), Ok(3));
    assert_eq!(rt; layer.is_entered(GOOD_FRIDAY), Ok(true));
    assert_eq!(rt; layer.restore(GOOD_FRIDAY), Ok(()));
    assert_eq!(rt; layer.code(GOOD_FRIDAY), Ok(3));
    assert_eq!(rt; layer.is_entered(GOOD_FRIDAY), Ok(false));
    assert_eq!(rt; layer.entry_count(), 0);
    Ok(())
}

#[test]
fn opened_day_closed_again_has_one_entry(rt: HostRuntime) -> Result<(), Fail> {
    let mut layer = target_layer(9)?;
    layer.open(GOOD_FRIDAY)?;
    layer.close(GOOD_FRIDAY)?;
    assert_eq!(rt; layer.entry_count(), 1);
    assert_eq!(rt; layer.code(GOOD_FRIDAY), Ok(9));
    assert_eq!(rt; layer.code_under(GOOD_FRIDAY), Ok(3));
    layer.restore(GOOD_FRIDAY)?;
    assert_eq!(rt; layer.entry_count(), 0);
    assert_eq!(rt; layer.code(GOOD_FRIDAY), Ok(3));
    Ok(())
}

#[test]
fn refusal_numbers(rt: HostRuntime) {
    assert_eq!(rt; CalendarFault::DayAbove(109_573).number(), 10);
    assert_eq!(rt; CalendarFault::NotEntered(45_377).number(), 13);
    assert_eq!(rt; CalendarFault::EntriesFull.number(), 14);
}

/// A day after 31 December 2199 is refused in every call.
fn check_late<P: Amendable>(rt: &impl Abort, calendar: &mut P, day: u32) {
    assert_eq!(rt; calendar.code(Day(day)), Err(CalendarFault::DayAbove(day)));
    assert_eq!(rt;
        calendar.code_under(Day(day)),
        Err(CalendarFault::DayAbove(day))
    );
    assert_eq!(rt;
        calendar.is_entered(Day(day)),
        Err(CalendarFault::DayAbove(day))
    );
    assert_eq!(rt; calendar.close(Day(day)), Err(CalendarFault::DayAbove(day)));
    assert_eq!(rt; calendar.open(Day(day)), Err(CalendarFault::DayAbove(day)));
    assert_eq!(rt;
        calendar.restore(Day(day)),
        Err(CalendarFault::DayAbove(day))
    );
    assert_eq!(rt; calendar.entry_count(), 0);
}

#[test]
fn late_days_refused(rt: HostRuntime) -> Result<(), Fail> {
    let mut layer = target_layer(9)?;
    check_late(&rt, &mut layer, 109_573);
    check_late(&rt, &mut layer, u32::MAX);
    let mut cache = DayCache::new(layer, Day(108_549));
    check_late(&rt, &mut cache, 109_573);
    check_late(&rt, &mut cache, u32::MAX);
    Ok(())
}

/// Closes 200 days from 1 January to 18 July 2024, the latest first.
fn fill<P: Amendable>(calendar: &mut P) -> Result<(), Fail> {
    for k in 0..200u32 {
        calendar.close(Day(45_489 - k))?;
    }
    Ok(())
}

/// With 200 entries no new day is entered: 20 July 2024, a Saturday, keeps its code.
fn check_full<P: Amendable>(rt: &impl Abort, calendar: &mut P) {
    let saturday = Day(45_491);
    assert_eq!(rt; calendar.entry_count(), 200);
    assert_eq!(rt; calendar.close(saturday), Err(CalendarFault::EntriesFull));
    assert_eq!(rt; calendar.open(saturday), Err(CalendarFault::EntriesFull));
    assert_eq!(rt; calendar.entry_count(), 200);
    assert_eq!(rt; calendar.is_entered(saturday), Ok(false));
    assert_eq!(rt; calendar.code(saturday), Ok(1));
    assert_eq!(rt; calendar.close(GOOD_FRIDAY), Ok(()));
    assert_eq!(rt; calendar.restore(GOOD_FRIDAY), Ok(()));
    assert_eq!(rt; calendar.code(GOOD_FRIDAY), Ok(3));
    assert_eq!(rt; calendar.entry_count(), 199);
    assert_eq!(rt; calendar.close(saturday), Ok(()));
    assert_eq!(rt; calendar.code(saturday), Ok(9));
    assert_eq!(rt; calendar.entry_count(), 200);
}

#[test]
fn two_hundred_entries(rt: HostRuntime) -> Result<(), Fail> {
    let mut layer = target_layer(9)?;
    fill(&mut layer)?;
    assert_eq!(rt; layer.code(Day(45_289)), Ok(1));
    assert_eq!(rt; layer.code(Day(45_290)), Ok(9));
    assert_eq!(rt; layer.code(Day(45_489)), Ok(9));
    assert_eq!(rt; layer.code(Day(45_490)), Ok(0));
    check_full(&rt, &mut layer);
    let mut cache = DayCache::new(target_layer(9)?, Day(44_925));
    fill(&mut cache)?;
    check_full(&rt, &mut cache);
    Ok(())
}

/// The days around the ends of a cache from 44,925: Saturday and Sunday, Monday and Tuesday.
const EDGES: [Day; 4] = [Day(44_924), Day(44_925), Day(45_948), Day(45_949)];

fn check_codes<P: Amendable>(rt: &impl Abort, calendar: &P, codes: [u8; 4]) {
    for (day, code) in EDGES.iter().zip(codes) {
        assert_eq!(rt; calendar.code(*day), Ok(code));
    }
}

/// The codes at the edges, as they are, closed, opened and restored; the days next to them keep theirs.
fn check_edges<P: Amendable>(rt: &impl Abort, calendar: &mut P) -> Result<(), Fail> {
    check_codes(rt, calendar, [1, 1, 0, 0]);
    for day in EDGES {
        calendar.close(day)?;
    }
    check_codes(rt, calendar, [9, 9, 9, 9]);
    assert_eq!(rt; calendar.code(Day(44_926)), Ok(0));
    assert_eq!(rt; calendar.code(Day(45_947)), Ok(1));
    for day in EDGES {
        calendar.open(day)?;
    }
    check_codes(rt, calendar, [0, 0, 0, 0]);
    assert_eq!(rt; calendar.entry_count(), 4);
    for day in EDGES {
        calendar.restore(day)?;
    }
    check_codes(rt, calendar, [1, 1, 0, 0]);
    assert_eq!(rt; calendar.entry_count(), 0);
    Ok(())
}

#[test]
fn cached_codes_are_those_of_the_layer(rt: HostRuntime) -> Result<(), Fail> {
    let mut layer = target_layer(9)?;
    check_edges(&rt, &mut layer)?;
    let mut cache = DayCache::new(layer, Day(44_925));
    check_edges(&rt, &mut cache)
}

#[test]
fn cache_over_a_layer_with_entries(rt: HostRuntime) -> Result<(), Fail> {
    let mut layer = target_layer(9)?;
    layer.close(THURSDAY)?;
    layer.open(GOOD_FRIDAY)?;
    let cache = DayCache::new(layer, Day(44_925));
    assert_eq!(rt; cache.number(), 9);
    assert_eq!(rt; cache.entry_count(), 2);
    assert_eq!(rt; cache.is_entered(THURSDAY), Ok(true));
    assert_eq!(rt; cache.is_entered(GOOD_FRIDAY), Ok(true));
    assert_eq!(rt; cache.is_entered(Day(45_379)), Ok(false));
    assert_eq!(rt; cache.code(THURSDAY), Ok(9));
    assert_eq!(rt; cache.code(GOOD_FRIDAY), Ok(0));
    assert_eq!(rt; cache.code_under(GOOD_FRIDAY), Ok(3));
    assert_eq!(rt; cache.code(Day(45_379)), Ok(1));
    Ok(())
}

/// A good day is closed, and has its code again when it is restored.
fn check_closed<P: Amendable>(rt: &impl Abort, calendar: &mut P, day: Day) -> Result<(), Fail> {
    assert_eq!(rt; calendar.code(day), Ok(0));
    calendar.close(day)?;
    assert_eq!(rt; calendar.code(day), Ok(9));
    calendar.restore(day)?;
    assert_eq!(rt; calendar.code(day), Ok(0));
    Ok(())
}

#[test]
fn late_start_counts_as_108549(rt: HostRuntime) -> Result<(), Fail> {
    let mut cache = DayCache::new(target_layer(9)?, Day(108_550));
    assert_eq!(rt; cache.code(Day(108_548)), Ok(1));
    assert_eq!(rt; cache.code(Day(109_566)), Ok(2));
    assert_eq!(rt; cache.code(Day(109_570)), Ok(1));
    check_closed(&rt, &mut cache, Day(108_549))?;
    check_closed(&rt, &mut cache, Day(108_550))?;
    check_closed(&rt, &mut cache, Day(109_572))
}

#[test]
fn layer_numbers(rt: HostRuntime) -> Result<(), Fail> {
    for number in [0, 15, 16, 255] {
        let mut layer = target_layer(number)?;
        layer.close(THURSDAY)?;
        assert_eq!(rt; layer.number(), 15);
        assert_eq!(rt; layer.code(THURSDAY), Ok(15));
    }
    assert_eq!(rt; target_layer(1)?.number(), 1);
    Ok(())
}

/// A record of two fields.
#[derive(Clone, Copy, PartialEq, Debug)]
struct Row {
    key: u64,
    value: u8,
}

impl Keyed for Row {
    ghost key = { λ r. r.key };

    fn key(&self) -> u64 {
        self.key
    }
}

fn row_of(key: u64, value: u8) -> Row {
    Row { key, value }
}

/// Three records by rising key.
fn three() -> [Row; 3] {
    [row_of(10, 1), row_of(20, 2), row_of(30, 3)]
}

#[test]
fn records_found(rt: HostRuntime) {
    let places = three();
    assert_eq!(rt; find(&places[0..0], 20), Err(0));
    assert_eq!(rt; find(&places[0..2], 30), Err(2));
    assert_eq!(rt; find(&places, 5), Err(0));
    assert_eq!(rt; find(&places, 10), Ok(0));
    assert_eq!(rt; find(&places, 25), Err(2));
    assert_eq!(rt; find(&places, 30), Ok(2));
    assert_eq!(rt; find(&places, 31), Err(3));
}

#[test]
fn records_put_in(rt: HostRuntime) {
    let mut places = [row_of(0, 0); 3];
    assert!(rt; insert(&mut places, 0, row_of(30, 3)));
    assert!(rt; insert(&mut places, 1, row_of(20, 2)));
    assert!(rt; !insert(&mut places, 2, row_of(20, 9)));
    assert!(rt; insert(&mut places, 2, row_of(10, 1)));
    assert_eq!(rt; places, three());
    assert!(rt; !insert(&mut places, 3, row_of(15, 9)));
    assert!(rt; !insert(&mut places, 4, row_of(15, 9)));
    assert_eq!(rt; places, three());
}

#[test]
fn records_taken_out(rt: HostRuntime) {
    let mut places = three();
    assert!(rt; !remove(&mut places, 3, 15));
    assert!(rt; !remove(&mut places, 2, 30));
    assert!(rt; !remove(&mut places, 4, 10));
    assert_eq!(rt; places, three());
    assert!(rt; remove(&mut places, 3, 10));
    assert_eq!(rt; places[0], row_of(20, 2));
    assert_eq!(rt; places[1], row_of(30, 3));
    let mut places = three();
    assert!(rt; remove(&mut places, 3, 20));
    assert_eq!(rt; places[0], row_of(10, 1));
    assert_eq!(rt; places[1], row_of(30, 3));
}

#[test]
fn records_replaced(rt: HostRuntime) {
    let mut places = three();
    assert!(rt; !replace(&mut places, 3, row_of(25, 9)));
    assert!(rt; !replace(&mut places, 2, row_of(30, 9)));
    assert_eq!(rt; places, three());
    assert!(rt; replace(&mut places, 3, row_of(20, 9)));
    assert_eq!(rt; places, [row_of(10, 1), row_of(20, 9), row_of(30, 3)]);
}
