// What the list does on small tables.
use crate::list::SlotList;
use crate::refusal::Refusal;
use std::test::Fail;

#[test]
fn inserts_at_the_front_in_the_middle_and_at_the_end(rt: HostRuntime) -> Result<(), Fail> {
    let mut table = [0u8; 4];
    let mut list = SlotList::over(&mut table);
    list.insert(0, 20)?;
    list.insert(0, 10)?;
    list.insert(2, 40)?;
    list.insert(2, 30)?;
    assert!(rt; list.as_slice() == &[10, 20, 30, 40][0..4]);
    Ok(())
}

#[test]
fn refuses_a_position_before_a_full_table(rt: HostRuntime) -> Result<(), Fail> {
    let mut table = [10u8];
    let mut list = SlotList::over(&mut table);
    assert_eq!(rt; list.insert(1, 20), Err(Refusal::NotInList));
    list.insert(0, 20)?;
    assert_eq!(rt; list.insert(2, 30), Err(Refusal::NotInList));
    assert_eq!(rt; list.insert(1, 30), Err(Refusal::Full));
    assert_eq!(rt; list.move_item(0, 1), Err(Refusal::NotInList));
    assert_eq!(rt; list.remove(1), Err(Refusal::NotInList));
    assert!(rt; list.as_slice() == &[20][0..1]);
    Ok(())
}

#[test]
fn moves_both_ways_and_removes(rt: HostRuntime) -> Result<(), Fail> {
    let mut table = [0u8; 3];
    let mut list = SlotList::over(&mut table);
    list.insert(0, 30)?;
    list.insert(0, 20)?;
    list.insert(0, 10)?;
    list.move_item(0, 2)?;
    assert!(rt; list.as_slice() == &[20, 30, 10][0..3]);
    list.move_item(2, 1)?;
    assert!(rt; list.as_slice() == &[20, 10, 30][0..3]);
    assert_eq!(rt; list.remove(1)?, 10);
    assert!(rt; list.as_slice() == &[20, 30][0..2]);
    Ok(())
}
