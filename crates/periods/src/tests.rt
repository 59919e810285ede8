use crate::{NotTaken, Periods};
use refusals::Refusal;
use std::test::Fail;

fn given(each: &[u16]) -> Result<Periods, Fail> {
    let mut periods = Periods::new();
    for period in each {
        periods.add(*period)?;
    }
    Ok(periods)
}

#[test]
fn takes_eight_proper_periods(rt: HostRuntime) -> Result<(), Fail> {
    let mut periods = given(&[1, 2, 3, 4, 5, 6, 2_000])?;
    assert_eq!(rt; periods.add(0), Err(NotTaken::Improper));
    assert_eq!(rt; periods.add(2_001), Err(NotTaken::Improper));
    assert_eq!(rt; periods.add(8), Ok(()));
    assert_eq!(rt; periods.add(9), Err(NotTaken::NoPlace));
    Ok(())
}

#[test]
fn finds_the_common_period(rt: HostRuntime) -> Result<(), Fail> {
    assert_eq!(rt; given(&[])?.common_period(), Err(Refusal::NoTask));
    assert_eq!(rt; given(&[8, 12, 12])?.common_period(), Ok(24));
    assert_eq!(rt; given(&[16, 625])?.common_period(), Ok(10_000));
    assert_eq!(rt;
        given(&[73, 137])?.common_period(),
        Err(Refusal::LongCommonPeriod)
    );
    let long = given(&[1_999, 1_997, 1_993, 1_987, 1_979, 1_973, 1_951, 1_949])?;
    assert_eq!(rt; long.common_period(), Err(Refusal::LongCommonPeriod));
    Ok(())
}

#[test]
fn counts_the_choices(rt: HostRuntime) -> Result<(), Fail> {
    assert_eq!(rt; given(&[8, 12, 12])?.choices()?.count(), 48);
    assert_eq!(rt; given(&[100, 100, 100])?.choices()?.count(), 10_000);
    assert_eq!(rt;
        given(&[100, 100, 100, 2])?.choices().err(),
        Some(Refusal::TooManyChoices)
    );
    assert_eq!(rt; given(&[])?.choices().err(), Some(Refusal::NoTask));
    Ok(())
}

#[test]
fn lists_the_starts_by_rank(rt: HostRuntime) -> Result<(), Fail> {
    let choices = given(&[8, 12, 12])?.choices()?;
    assert_eq!(rt; choices.starts(0), Some([0; 8]));
    assert_eq!(rt; choices.starts(1), Some([0, 0, 1, 0, 0, 0, 0, 0]));
    assert_eq!(rt; choices.starts(12), Some([0, 1, 0, 0, 0, 0, 0, 0]));
    assert_eq!(rt; choices.starts(47), Some([0, 3, 11, 0, 0, 0, 0, 0]));
    assert_eq!(rt; choices.starts(48), None);
    Ok(())
}
