ghost use Rattle.std.specs.Prelude.{◌≡◌, ◌+◌, ◌<◌, OnOk};

use rpki_der::*;
use std::alloc::Global;
use std::marker::Brand;
use std::sync::ledger::{Blank, Ledger};
use std::test::Fail;

// Values are read and written by the program test_values, over stored cases.

// No run can read a count, which has no bytes, so a clause says it: two headers and an end mark.
fn takes_marked_counted<L: Ledger>(alloc: Global, steps: &mut Steps<L>) -> Result<(), DecodeError>
    ensures { OnOk result (steps.new ≡ steps.old + 3) }
{
    let octets = [0x30, 0x80, 0x02, 0x01, 0x00, 0x00, 0x00];
    let mut cursor = Cursor::new(alloc, Mode::Ber, &octets);
    match cursor.next_value_counted(steps) {
        Ok(Some(_)) => Ok(()),
        Ok(None) => Err(DecodeError::Malformed),
        Err(error) => Err(error),
    }
}

fn takes_marked<L: Ledger>(alloc: Global, blank: Blank) -> Result<(), DecodeError>
    requires name { blank.name ≡ L.name }
    requires parts { blank.parts ≡ L.parts }
    requires some { 0 < blank.parts }
{
    let mut steps = Steps::<L>::new(blank);
    takes_marked_counted(alloc, &mut steps)
}

#[test]
fn an_indefinite_value_of_one_ticks_three_times(rt: HostRuntime) {
    assert!(rt; takes_marked::<Brand>(rt.alloc(), Blank::new(1)).is_ok());
}

// An indefinite value by its parts, the header, the value in it and the end mark: three ticks.
fn goes_through_counted<L: Ledger>(alloc: Global, steps: &mut Steps<L>) -> Result<bool, DecodeError>
    ensures { OnOk result (steps.new ≡ steps.old + 3) }
{
    let octets = [0x30, 0x80, 0x02, 0x01, 0x00, 0x00, 0x00];
    let mut cursor = Cursor::new(alloc, Mode::Ber, &octets);
    cursor.enter_counted(Tag::SEQUENCE, steps)?;
    match cursor.next_value_counted(steps)? {
        None => Err(DecodeError::Malformed),
        Some(item) => {
            cursor.leave_counted(steps)?;
            Ok(item.tag == Tag::INTEGER && item.content == [0x00].as_slice() && cursor.end())
        }
    }
}

fn goes_through<L: Ledger>(alloc: Global, blank: Blank) -> Result<bool, DecodeError>
    requires name { blank.name ≡ L.name }
    requires parts { blank.parts ≡ L.parts }
    requires some { 0 < blank.parts }
{
    let mut steps = Steps::<L>::new(blank);
    goes_through_counted(alloc, &mut steps)
}

#[test]
fn going_through_an_indefinite_value_of_one_ticks_three_times(rt: HostRuntime) {
    assert!(rt; matches!(goes_through::<Brand>(rt.alloc(), Blank::new(1)), Ok(true)));
}
