// A sheet of three tasks, charted and searched for late requests, at slices of each length.
use crate::{InspectRefusal, chart, inspect, late_requests};
use entries::{Bar, LateRequest, List};
use refusals::Refusal;
use sheets::{Sheet, SheetFault, SheetRow};
use std::ops::Range;
use std::test::Fail;
use tasks::Figures;

// The third task starts at a tick, the others at 0.
fn sheet(start: u16) -> Result<Sheet, Fail> {
    Ok(Sheet::form(&[
        SheetRow::new(1, Figures::new(3, 8, 8), 0, 1),
        SheetRow::new(2, Figures::new(6, 12, 12), 0, 2),
        SheetRow::new(3, Figures::new(1, 12, 12), start, 3),
    ])?)
}

fn bar(first: u32, length: u32, id: u8) -> Bar {
    Bar { first, length, id }
}

fn charted(
    start: u16,
    window: Range<u32>,
    slots: &mut [Bar],
) -> Result<Result<usize, Refusal>, Fail> {
    let mut list = List::new(slots);
    Ok(chart(&sheet(start)?, window, &mut list).map(|()| list.len()))
}

#[test]
fn a_chart_covers_its_window(rt: HostRuntime) -> Result<(), Fail> {
    let blank = bar(9, 9, 9);
    let mut short = [blank; 7];
    assert_eq!(rt; charted(10, 0..24, &mut short)?, Err(Refusal::ListTooShort));
    assert_eq!(rt; short, [blank; 7]);
    let mut exact = [blank; 8];
    assert_eq!(rt; charted(10, 0..24, &mut exact)?, Ok(8));
    let whole = [
        bar(0, 3, 1),
        bar(3, 5, 2),
        bar(8, 3, 1),
        bar(11, 5, 2),
        bar(16, 3, 1),
        bar(19, 2, 2),
        bar(21, 2, 3),
        bar(23, 1, 0),
    ];
    assert_eq!(rt; exact, whole);
    let mut long = [blank; 3];
    assert_eq!(rt; charted(10, 4..9, &mut long)?, Ok(2));
    assert_eq!(rt; long, [bar(4, 4, 2), bar(8, 1, 1), blank]);
    Ok(())
}

#[test]
fn a_window_ends_by_the_horizon(rt: HostRuntime) -> Result<(), Fail> {
    assert_eq!(rt; charted(10, 58..58, &mut [])?, Ok(0));
    assert_eq!(rt; charted(10, 57..58, &mut [])?, Err(Refusal::ListTooShort));
    assert_eq!(rt; charted(10, 59..59, &mut [])?, Err(Refusal::WrongWindow));
    assert_eq!(rt; charted(10, 6..5, &mut [])?, Err(Refusal::WrongWindow));
    Ok(())
}

fn late(id: u8, request: u32, deadline: u32) -> LateRequest {
    LateRequest {
        id,
        request,
        deadline,
    }
}

#[test]
fn late_requests_are_told_by_deadline(rt: HostRuntime) -> Result<(), Fail> {
    let blank = late(9, 9, 9);
    let mut short = [blank];
    let mut list = List::new(&mut short);
    assert_eq!(rt;
        late_requests(&sheet(0)?, &mut list),
        Err(Refusal::ListTooShort)
    );
    assert_eq!(rt; short, [blank]);
    let mut long = [blank; 3];
    let mut list = List::new(&mut long);
    late_requests(&sheet(0)?, &mut list)?;
    assert_eq!(rt; list.len(), 2);
    assert_eq!(rt; long, [late(3, 0, 12), late(3, 24, 36), blank]);
    Ok(())
}

fn bytes_of(sheet: &Sheet) -> Result<[u8; 34], Fail> {
    let mut bytes = [0; 34];
    sheet.write(&mut bytes)?;
    Ok(bytes)
}

#[test]
fn bytes_are_inspected(rt: HostRuntime) -> Result<(), Fail> {
    let blank = late(9, 9, 9);
    let mut slots = [blank; 3];
    let mut list = List::new(&mut slots);
    list.add(blank)?;
    inspect(&bytes_of(&sheet(0)?)?, &mut list)?;
    assert_eq!(rt; list.len(), 2);
    assert_eq!(rt; slots, [late(3, 0, 12), late(3, 24, 36), blank]);
    Ok(())
}

// The list is too short in each case, and stays as it was.
#[test]
fn a_fault_comes_before_a_short_list(rt: HostRuntime) -> Result<(), Fail> {
    let blank = late(9, 9, 9);
    let mut slots = [blank];
    let mut list = List::new(&mut slots);
    list.add(blank)?;
    let mut bytes = bytes_of(&sheet(0)?)?;
    assert_eq!(rt;
        inspect(&bytes, &mut list),
        Err(InspectRefusal::RefusedList(Refusal::ListTooShort))
    );
    assert_eq!(rt;
        inspect(&bytes[0..33], &mut list),
        Err(InspectRefusal::FaultySheet(SheetFault::WrongLength))
    );
    // The first period is 1,999, and the common one 23,988.
    bytes[7..9].copy_from_slice(&[7, 207]);
    let refusal = inspect(&bytes, &mut list).err().ok_or("listed")?;
    assert_eq!(rt; refusal.number(), 47);
    assert_eq!(rt; list.len(), 1);
    assert_eq!(rt; slots, [blank]);
    Ok(())
}
