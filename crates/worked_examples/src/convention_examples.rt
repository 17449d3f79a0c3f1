use calendars::{Weekly, target_calendar};
use conventions::{Adjuster, Convention, Following, ModifiedFollowing, Preceding, Unadjusted};
use dates::Day;
use faults::{GenerationFault, RollAt};
use generation::fixing_before;
use std::test::Fail;

/// 31 March 2024, Easter Sunday.
const EASTER: Unadjusted = Unadjusted(45_380);

#[test]
fn easter_sunday_adjusted(rt: HostRuntime) -> Result<(), Fail> {
    let target = target_calendar()?;
    let modified = Adjuster {
        calendar: &target,
        convention: &ModifiedFollowing,
    };
    let following = Adjuster {
        calendar: &target,
        convention: &Following,
    };
    let preceding = Adjuster {
        calendar: &target,
        convention: &Preceding,
    };
    assert_eq!(rt; modified.adjust(EASTER)?.day(), Day(45_377));
    assert_eq!(rt; following.adjust(EASTER)?.day(), Day(45_382));
    assert_eq!(rt; preceding.adjust(EASTER)?.day(), Day(45_377));
    Ok(())
}

#[test]
fn days_tried(rt: HostRuntime) {
    assert_eq!(rt; ModifiedFollowing.count(Unadjusted(45_347)), Ok(33));
    assert_eq!(rt;
        ModifiedFollowing.nth(Unadjusted(45_347), 2),
        Ok(Day(45_349))
    );
    assert_eq!(rt;
        ModifiedFollowing.nth(Unadjusted(45_347), 3),
        Ok(Day(45_346))
    );
    assert_eq!(rt;
        ModifiedFollowing.nth(Unadjusted(45_347), 33),
        Err(GenerationFault::NotTried)
    );
    assert_eq!(rt; Following.nth(Unadjusted(109_207), 30), Ok(Day(109_237)));
    assert_eq!(rt;
        Following.nth(Unadjusted(109_208), 0),
        Err(GenerationFault::NotTried)
    );
    assert_eq!(rt; Preceding.nth(Unadjusted(365), 30), Ok(Day(335)));
    assert_eq!(rt;
        Preceding.nth(Unadjusted(364), 0),
        Err(GenerationFault::NotTried)
    );
}

#[test]
fn letters_and_reach(rt: HostRuntime) {
    assert_eq!(rt; Following.code_letter(), 'F');
    assert_eq!(rt; Preceding.code_letter(), 'P');
    assert_eq!(rt; ModifiedFollowing.code_letter(), 'M');
    assert_eq!(rt; Following.farthest(), 30);
}

#[test]
fn nothing_good(rt: HostRuntime) -> Result<(), Fail> {
    let closed = Weekly::new([true; 7], 1);
    let adjuster = Adjuster {
        calendar: &closed,
        convention: &ModifiedFollowing,
    };
    let fault = GenerationFault::NoGoodDay(RollAt {
        bond: 0,
        roll: 0,
        day: 45_380,
    });
    assert_eq!(rt; adjuster.adjust(EASTER), Err(fault));
    Ok(())
}

#[test]
fn fixings(rt: HostRuntime) -> Result<(), Fail> {
    let target = target_calendar()?;
    let on_target = Adjuster {
        calendar: &target,
        convention: &Following,
    };
    let tuesday = on_target.adjust(EASTER)?;
    assert_eq!(rt; fixing_before(&target, tuesday, 1), Some(Day(45_377)));
    assert_eq!(rt; fixing_before(&target, tuesday, 2), Some(Day(45_376)));
    let mondays = Weekly::new([false, true, true, true, true, true, true], 1);
    let on_mondays = Adjuster {
        calendar: &mondays,
        convention: &Following,
    };
    let monday = on_mondays.adjust(EASTER)?;
    assert_eq!(rt; fixing_before(&mondays, monday, 8), Some(Day(45_381 - 56)));
    assert_eq!(rt; fixing_before(&mondays, monday, 9), None);
    Ok(())
}
