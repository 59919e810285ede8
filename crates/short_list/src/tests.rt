use crate::{Full, ShortList};
use std::test::Fail;

#[test]
fn keeps_the_order_of_its_items(rt: HostRuntime) -> Result<(), Full> {
    let mut list = ShortList::<u8, 3>::new();
    list.push(4)?;
    list.push(9)?;
    list.insert(1, 7)?;
    assert_eq!(rt; list.as_slice(), [4, 7, 9].as_slice());
    assert_eq!(rt; list.push(1), Err(Full));
    assert_eq!(rt; list.insert(0, 1), Err(Full));
    assert_eq!(rt; list.replace(1, 8), Some(7));
    assert_eq!(rt; list.replace(3, 8), None);
    assert_eq!(rt; list.remove(0), Some(4));
    assert_eq!(rt; list.remove(2), None);
    assert_eq!(rt; list.as_slice(), [8, 9].as_slice());
    list.insert(5, 6)?;
    assert_eq!(rt; list.last(), Some(&6));
    list.update(|item| item / 2);
    assert_eq!(rt; list.as_slice(), [4, 4, 3].as_slice());
    Ok(())
}

#[test]
fn changes_items_of_which_something_is_given(rt: HostRuntime) -> Result<(), Full> {
    let mut list = ShortList::<u8, 4>::new();
    list.push(4)?;
    list.push(9)?;
    list.push(7)?;
    list.update_some(|item| (item > 4).then_some(item + 1));
    assert_eq!(rt; list.as_slice(), [4, 10, 8].as_slice());
    Ok(())
}

#[test]
fn takes_a_slice_that_is_short_enough(rt: HostRuntime) -> Result<(), Fail> {
    let list = ShortList::<u16, 2>::try_from([1, 2].as_slice());
    assert_eq!(rt; list?.as_slice(), [1, 2].as_slice());
    let long = ShortList::<u16, 2>::try_from([1, 2, 3].as_slice());
    assert_eq!(rt; long.err(), Some(Full));
    Ok(())
}

#[test]
fn exchanges_two_items_that_are_there(rt: HostRuntime) -> Result<(), Full> {
    let mut list = ShortList::<u8, 4>::new();
    list.push(4)?;
    list.push(9)?;
    list.push(7)?;
    list.swap(0, 2);
    assert_eq!(rt; list.as_slice(), [7, 9, 4].as_slice());
    list.swap(1, 3);
    assert_eq!(rt; list.as_slice(), [7, 9, 4].as_slice());
    Ok(())
}

#[test]
fn takes_the_items_of_an_iterator(rt: HostRuntime) -> Result<(), Full> {
    let list = ShortList::<usize, 3>::from_iter((0..6).step_by(2))?;
    assert_eq!(rt; list.as_slice(), [0, 2, 4].as_slice());
    let long = ShortList::<usize, 3>::from_iter(0..4);
    assert_eq!(rt; long.err(), Some(Full));
    Ok(())
}
