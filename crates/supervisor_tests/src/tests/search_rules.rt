//! The rules with which a process opens.

use mx_search::Rules;
use std::alloc::Global;
use std::test::Fail;

// Whether a copy of the rules is equal to them, and how many there are.
fn opening(alloc: Global) -> Result<(bool, usize), Fail> {
    let opening = Rules::opening(alloc)?;
    Ok((opening.copy()? == opening, opening.items().len()))
}

#[test]
fn a_process_opens_with_four_rules(rt: HostRuntime) -> Result<(), Fail> {
    assert_eq!(rt; opening(rt.alloc())?, (true, 4));
    Ok(())
}
