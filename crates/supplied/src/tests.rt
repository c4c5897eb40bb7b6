// Examples of the supplied links.
use crate::carry::Carry;
use crate::label::Label;
use kinds::change::Change;
use links::link::Link;
use std::test::Fail;

// A lot that is filled is carried, and a lot that is broken is taken back: the memory goes round from 999 to 0 and back.
#[test]
fn lots_go_round(rt: HostRuntime) -> Result<(), Fail> {
    let mut carry = Carry::new(1_000, 9)?;
    assert_eq!(rt; carry.carry_right(Change::Add(999)), Ok(Change::Keep));
    assert_eq!(rt; carry.rest, 999);
    assert_eq!(rt; carry.carry_right(Change::Add(1)), Ok(Change::Add(1)));
    assert_eq!(rt; carry.rest, 0);
    assert_eq!(rt; carry.carry_right(Change::Add(-1)), Ok(Change::Add(-1)));
    assert_eq!(rt; carry.rest, 999);
    Ok(())
}

// Too many lots have no translation, and leave the memory as it was.
#[test]
fn too_many_lots(rt: HostRuntime) -> Result<(), Fail> {
    let mut carry = Carry::new(1_000, 9)?;
    let carried = carry.carry_right(Change::Add(-9_999));
    assert_eq!(rt; carried.map_err(|refusal| refusal.number()), Err(10));
    assert_eq!(rt; carry.rest, 0);
    Ok(())
}

#[test]
fn labels(rt: HostRuntime) {
    let mut label = Label;
    assert_eq!(rt; label.carry_right(Change::Set(131)), Ok(Change::Set(193)));
}
