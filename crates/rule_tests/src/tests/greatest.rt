//! The greatest table: fifteen processes, with 128 numbers each.

ghost use Rattle.mx_rule.specs.Openings.{MayOpen};

use mx_core::Changes;
use mx_rule::{Key, Layout, SuperSeat, Words, close, open};
use std::alloc::Global;
use std::test::Fail;

// No process knows a number.
fn greatest(alloc: Global) -> Key
    ensures { MayOpen result.layout result.start result.base }
{
    let layout = Layout {
        processes: 15,
        numbers: 128,
    };
    Key {
        layout,
        start: 262_143,
        base: Changes::new(alloc),
    }
}

#[test]
fn the_greatest_table_fits(rt: HostRuntime) -> Result<(), Fail> {
    let key = greatest(rt.alloc());
    let (words, last) = (key.layout.words(), key.layout.cell(65_535));
    let (table, chief): (Words<u32>, SuperSeat<u32>) = open(rt.alloc(), &key)?;
    close(table, chief);
    assert_eq!(rt; (words, last), (67_488, 67_487));
    Ok(())
}
