// A few draws, run.
use crate::{Generator, Source, SourceFault, Tape, draw_all, write_record};
use pile::EntryReceipt;
use std::test::Fail;

#[test]
fn tape_asks_in_order(rt: HostRuntime) {
    let mut tape = Tape::new(b"DR\x00\x03\x00\x01DR\x00\x02\x00\x02");
    assert_eq!(rt; tape.draw(0), Err(SourceFault::Radix(0)));
    assert_eq!(rt; tape.draw(2), Err(SourceFault::OtherRadix(0)));
    assert_eq!(rt; tape.draw(3), Ok(1));
    assert_eq!(rt; tape.draw(2), Err(SourceFault::BadRecord(6)));
    assert_eq!(rt; tape.draw(1025), Err(SourceFault::Radix(6)));
    assert_eq!(rt; tape.is_used_up(), false);
}

#[test]
fn tape_ends(rt: HostRuntime) {
    assert_eq!(rt; Tape::new(b"").draw(1), Err(SourceFault::NoneLeft(0)));
    let mut tape = Tape::new(b"DR\x00\x01\x00\x00DR\x00\x01\x00");
    assert_eq!(rt; tape.draw(1), Ok(0));
    assert_eq!(rt; tape.draw(1), Err(SourceFault::BadRecord(6)));
    assert_eq!(rt; tape.draws_used(), 1);
}

#[test]
fn generator_draws(rt: HostRuntime) {
    assert_eq!(rt; Generator::new(1 << 63).draw(1024), Ok(516));
    assert_eq!(rt; Generator::new(1 << 63).draw(3), Ok(1));
    assert_eq!(rt; Generator::new(0).draw(1024), Ok(0));
    assert_eq!(rt; Generator::new(1).draw(1025), Err(SourceFault::Radix(0)));
}

#[test]
fn written_tape_reads_back(rt: HostRuntime) -> Result<(), Fail> {
    let receipt = EntryReceipt {
        radix: 1024,
        draw: 1023,
        place: None,
    };
    let mut bytes = [0; 13];
    let end = write_record(receipt, &mut bytes, 0)?;
    let end = write_record(receipt, &mut bytes, end)?;
    assert_eq!(rt; write_record(receipt, &mut bytes, end).is_ok(), false);
    let mut draws = [7; 4];
    let drawn = draw_all(&mut Tape::new(&bytes), &[1024, 1024, 1], &mut draws);
    assert_eq!(rt; drawn.count, 2);
    assert_eq!(rt; drawn.refusal, Some(SourceFault::BadRecord(12)));
    assert_eq!(rt; draws, [1023, 1023, 7, 7]);
    Ok(())
}
