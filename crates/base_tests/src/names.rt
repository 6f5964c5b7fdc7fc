use inc_base::{Copied, Label, List, Name};
use inc_names::{
    Entry, SessionName, crate_dir, entries_differ, entry_text, names_are_ordered, newer, read_entry,
};
use std::test::Fail;

const SESSION: SessionName = SessionName {
    moment: 35,
    random: 0,
};

#[test]
fn entries(rt: HostRuntime) -> Result<(), Fail> {
    let rows: [(Entry, &[u8]); 3] = [
        (Entry::Lock(SESSION), b"s-z-0.lock"),
        (Entry::Working(SESSION), b"s-z-0-working"),
        (Entry::Final(SESSION, 1), b"s-z-0-0000000000000000000000001"),
    ];
    for (entry, text) in rows {
        let label = entry_text(rt.alloc(), &entry)?;
        assert_eq!(rt; label.bytes(), text);
        assert_eq!(rt; read_entry(&label), Some(entry));
    }
    let none: [&[u8]; 4] = [b"s-0z-0.lock", b"s-Z-0.lock", b"s-z-0-1", b"s-z-0"];
    for text in none {
        let label = Label::of(rt.alloc(), text)?.ok_or("no label")?;
        assert_eq!(rt; read_entry(&label), None);
    }
    entries_differ();
    Ok(())
}

#[test]
fn order_and_labels(rt: HostRuntime) -> Result<(), Fail> {
    let later = SessionName {
        moment: 36,
        random: 0,
    };
    assert!(rt; newer(later, SESSION));
    assert!(rt; !newer(SESSION, later));
    names_are_ordered();
    let mut names = List::new(rt.alloc());
    names.push(SESSION)?;
    assert_eq!(rt; names.copy()?.as_slice(), [SESSION].as_slice());
    let name = Name::of(rt.alloc(), b"k")?.ok_or("no name")?;
    assert_eq!(rt; name.bytes(), b"k".as_slice());
    assert_eq!(rt; crate_dir(rt.alloc(), &name)?.bytes(), b"k".as_slice());
    Ok(())
}
