// The refusals that no script of the programs can meet: 10 and 15 want a pile that is changed past its roster, and 14 one
// that takes no leaves.
use bottoms::{EntriesOnly, Paired};
use keys::Name;
use pile::Pile;
use roster::{Record, Roster, Unsettled};
use std::test::Fail;

// Admits the key, and answers the number of the refusal, or 0.
fn number_of_admit<'a, P: Pile>(roster: &mut Roster<'a, Name>, key: Name, pile: &P) -> u8 {
    match roster.admit(key, pile) {
        Ok(slip) => {
            let _ = roster.withdraw(slip);
            0
        }
        Err(fault) => fault.number(),
    }
}

// Makes the key live with draw 0, and answers the number of the refusal, or 0.
fn number_of_entry<'a, P: Pile>(roster: &mut Roster<'a, Name>, key: Name, pile: &mut P) -> u8 {
    match roster.admit(key, pile) {
        Ok(slip) => match roster.settle(slip, pile, 0) {
            Ok(_) => 0,
            Err(Unsettled { fault, slip }) => {
                let _ = roster.withdraw(slip);
                fault.number()
            }
        },
        Err(fault) => fault.number(),
    }
}

fn number_of_leave<'a, P: Pile>(roster: &mut Roster<'a, Name>, key: Name, pile: &mut P) -> u8 {
    match roster.leave(key, pile) {
        Ok(_) => 0,
        Err(fault) => fault.number(),
    }
}

#[test]
fn full_pile(rt: HostRuntime) -> Result<(), Fail> {
    let mut records = [Record::Free; 2];
    let mut roster = Roster::new(&mut records, 2);
    let mut pile = Paired::new(4);
    let heron = Name::new(b"heron")?;
    for tag in 0..1023u16 {
        let _ = pile.entry(tag, 4, 0)?;
    }
    assert_eq!(rt; number_of_admit(&mut roster, heron, &pile), 0);
    let _ = pile.entry(1023, 4, 0)?;
    assert_eq!(rt; number_of_admit(&mut roster, heron, &pile), 10);
    Ok(())
}

#[test]
fn pile_without_leaves(rt: HostRuntime) -> Result<(), Fail> {
    let mut records = [Record::Free; 2];
    let mut roster = Roster::new(&mut records, 2);
    let mut pile = EntriesOnly::new(4);
    let heron = Name::new(b"heron")?;
    assert_eq!(rt; number_of_entry(&mut roster, heron, &mut pile), 0);
    assert_eq!(rt; number_of_leave(&mut roster, heron, &mut pile), 14);
    assert!(rt; roster.is_live(&heron));
    Ok(())
}

#[test]
fn empty_pile(rt: HostRuntime) -> Result<(), Fail> {
    let mut records = [Record::Free; 2];
    let mut roster = Roster::new(&mut records, 2);
    let mut pile = Paired::new(4);
    let heron = Name::new(b"heron")?;
    assert_eq!(rt; number_of_entry(&mut roster, heron, &mut pile), 0);
    let _ = pile.leave(77, 4)?;
    assert_eq!(rt; number_of_leave(&mut roster, heron, &mut pile), 15);
    assert!(rt; roster.is_live(&heron));
    Ok(())
}
