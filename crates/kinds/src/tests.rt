// Examples of kinds and their changes.
use crate::change::Change;
use crate::kind::{Kind, Letter};
use std::test::Fail;

#[test]
fn amounts(rt: HostRuntime) -> Result<(), Fail> {
    let kind = Kind::new(Letter::Amount, 10)?;
    assert_eq!(rt; kind.apply(Change::Add(6), 4), Ok(10));
    assert_eq!(rt;
        kind.apply(Change::Add(7), 4)
            .map_err(|refusal| refusal.number()),
        Err(9)
    );
    assert_eq!(rt;
        kind.apply(Change::Set(7), 4)
            .map_err(|refusal| refusal.number()),
        Err(8)
    );
    let both = kind.fold(Change::Add(-1), Change::Add(1));
    assert_eq!(rt; both, Ok(Some(Change::Keep)));
    Ok(())
}

#[test]
fn flags(rt: HostRuntime) -> Result<(), Fail> {
    let kind = Kind::new(Letter::Flags, 15)?;
    assert_eq!(rt; kind.apply(Change::Mask { mask: 5, bits: 1 }, 12), Ok(9));
    let refused = Kind::new(Letter::Flags, 12).map_err(|refusal| refusal.number());
    assert_eq!(rt; refused, Err(11));
    Ok(())
}
