use crate::judging::judge;
use crate::lone::Lone;
use search::graph::Kind;
use std::test::Fail;

#[test]
fn cells_are_zeroed(rt: HostRuntime) -> Result<(), Fail> {
    let mut lone = Lone {
        kind: Kind::BreaksCc2,
        entered: false,
    };
    let mut cells = [9u32; 3];
    assert!(rt; judge(&mut lone, 0, &mut cells, &mut []).is_err());
    assert!(rt; cells[0] == 0 && cells[2] == 0);
    cells = [9; 3];
    assert!(rt; judge(&mut lone, 1, &mut cells[0..1], &mut []).is_err());
    assert!(rt; cells[0] == 0 && cells[1] == 9);
    cells = [9; 3];
    let Ok(Some(found)) = judge(&mut lone, 1, &mut cells, &mut []) else {
        return Err(Fail::new("the empty list breaks"));
    };
    assert!(rt; found.start == 0);
    assert!(rt; cells[0] == 0 && cells[1] == 0 && cells[2] == 0);
    Ok(())
}
