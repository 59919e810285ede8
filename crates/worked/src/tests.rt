// The worked plan as the library files it and looks for late requests.
use crate::worked_plan;
use charts::late_requests;
use entries::{LateRequest, List};
use judges::Tick;
use sheets::Sheet;
use std::test::Fail;

#[test]
fn files_the_plan_and_finds_none_late(rt: HostRuntime) -> Result<(), Fail> {
    let plan = worked_plan::<Tick>();
    let mut bytes = [0; 34];
    plan.write(&mut bytes)?;
    let filed = Sheet::read(&bytes)?;
    assert_eq!(rt; filed.rows(), plan.rows());
    let mut none: [LateRequest; 0] = [];
    Ok(late_requests(&filed, &mut List::new(&mut none))?)
}
