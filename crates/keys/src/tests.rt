// Keys at the edges of their kinds.
use crate::{Key, KeyFault, Name, Number, Printed, read_keys};
use std::test::Fail;

#[test]
fn numbers(rt: HostRuntime) {
    assert!(rt; !Number::new(0).is_lawful());
    assert_eq!(rt; Number::new(127).class(), 0);
    assert_eq!(rt; Number::new(128).class(), 1);
    assert_eq!(rt; Number::new(10239).class(), 1);
    assert_eq!(rt; Number::new(10240).class(), 2);
    assert!(rt; matches!(Number::read(&[0, 0, 9]), Err(KeyFault::Unlawful)));
    assert!(rt; matches!(Number::read(&[1]), Err(KeyFault::Short)));
    let mut page = *b"......";
    assert_eq!(rt; Number::new(65535).print(&mut page, 1), Some(5));
    assert_eq!(rt; page, *b".65535");
    assert_eq!(rt; Number::new(10).print(&mut page, 5), None);
    assert_eq!(rt; page, *b".65535");
}

#[test]
fn names(rt: HostRuntime) -> Result<(), Fail> {
    let bytes = b"\x02a~rest";
    let name = Name::read(bytes)?;
    assert_eq!(rt; name.class(), 4);
    assert_eq!(rt; name.as_str(), "a~");
    assert_eq!(rt; Name::rest(bytes), b"rest".as_slice());
    assert!(rt; matches!(Name::read(b"\x09"), Err(KeyFault::Unlawful)));
    assert!(rt; matches!(Name::read(b"\x02\x20"), Err(KeyFault::Short)));
    assert!(rt; matches!(Name::read(b"\x02a\x20"), Err(KeyFault::Unlawful)));
    assert!(rt; Name::new(b"12345678")?.is_lawful());
    assert!(rt; matches!(Name::new(b"123456789"), Err(KeyFault::Unlawful)));
    let mut page = [0; 3];
    assert_eq!(rt; name.print(&mut page, 1), Some(2));
    assert_eq!(rt; page, *b"\0a~");
    Ok(())
}

#[test]
fn keys_in_a_row(rt: HostRuntime) {
    let mut log = [0; 5];
    assert_eq!(rt; Number::new(300).write(&mut log, 0), Some(2));
    assert_eq!(rt; Number::new(7).write(&mut log, 2), Some(2));
    assert_eq!(rt; Number::new(7).write(&mut log, 4), None);
    let mut keys = [Number::new(0); 3];
    assert_eq!(rt; read_keys(&log, &mut keys), 2);
    assert!(rt; keys[..2] == [Number::new(300), Number::new(7)]);
}
