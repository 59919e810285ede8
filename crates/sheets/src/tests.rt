ghost use Rattle.std.specs.Prelude.{◌≡◌};
ghost use Rattle.sheets.specs.Bytes.{encoded};
ghost use Rattle.sheets.specs.Example.{example_rows, example_bytes};

use crate::{EntryFault, Layer, Sheet, SheetFault, SheetRow, WrongEntry};
use refusals::{Refusal, TaskFault};
use std::test::Fail;
use tasks::Figures;

const EXAMPLE: [u8; 34] = [
    0, 3, 0, 34, 1, 0, 3, 0, 8, 0, 8, 2, 0, 6, 0, 12, 0, 12, 3, 0, 1, 0, 12, 0, 12, 0, 0, 1, 0, 0,
    2, 0, 10, 3,
];

fn example() -> Result<Sheet, SheetFault>
    ensures { encoded example_rows ≡ example_bytes }
{
    Sheet::form(&[
        SheetRow::new(1, Figures::new(3, 8, 8), 0, 1),
        SheetRow::new(2, Figures::new(6, 12, 12), 0, 2),
        SheetRow::new(3, Figures::new(1, 12, 12), 10, 3),
    ])
}

#[test]
fn writes_the_example(rt: HostRuntime) -> Result<(), Fail> {
    let sheet = example()?;
    let mut out = [255; 35];
    assert_eq!(rt; sheet.write(&mut out[0..33]), Err(Refusal::ListTooShort));
    assert_eq!(rt; out, [255; 35]);
    assert_eq!(rt; sheet.write(&mut out), Ok(34));
    assert_eq!(rt; &out[0..34], &EXAMPLE[0..34]);
    assert_eq!(rt; out[34], 255);
    Ok(())
}

#[test]
fn reads_the_example(rt: HostRuntime) -> Result<(), Fail> {
    assert_eq!(rt; Sheet::read(&EXAMPLE)?.rows(), example()?.rows());
    assert_eq!(rt;
        Sheet::read(&EXAMPLE[0..3]).err(),
        Some(SheetFault::NoHeader)
    );
    assert_eq!(rt;
        Sheet::read(&[1, 1, 0, 14]).err(),
        Some(SheetFault::WrongCount)
    );
    assert_eq!(rt;
        Sheet::read(&EXAMPLE[0..33]).err(),
        Some(SheetFault::WrongLength)
    );
    Ok(())
}

#[test]
fn tells_the_first_wrong_entry(rt: HostRuntime) -> Result<(), Fail> {
    let unfair = Sheet::form(&[
        SheetRow::new(1, Figures::new(1, 2_001, 2_001), 0, 1),
        SheetRow::new(2, Figures::new(0, 5, 5), 0, 2),
    ]);
    let fault = unfair.err().ok_or("formed")?;
    assert_eq!(rt; fault.number(), 44);
    assert_eq!(rt; fault.layer(), Layer::Entries);
    assert_eq!(rt; fault.place(), 1);
    assert_eq!(rt; fault.cause(), Some(TaskFault::LongPeriod));
    let twice = Sheet::form(&[
        SheetRow::new(1, Figures::new(1, 5, 5), 0, 1),
        SheetRow::new(2, Figures::new(1, 5, 5), 0, 1),
    ]);
    assert_eq!(rt;
        twice.err(),
        Some(SheetFault::Entry(WrongEntry {
            place: 2,
            fault: EntryFault::WrongLevel,
        }))
    );
    Ok(())
}
