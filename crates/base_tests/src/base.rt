use inc_base::{
    Bytes, Compiler, Copied, Failed, Job, Label, List, MemSink, MemSource, Meter, Name, ReadFault,
    Roomy, Sink, Source, StdSink, StdSource, VERSION, from36, from36_wide, read_to, rises_add_up,
    to36, to36_wide, write_all,
};
use std::collections::BTreeMap;
use std::fs::File;
use std::test::Fail;

#[test]
fn labels_are_path_components(rt: HostRuntime) -> Result<(), Fail> {
    let alloc = rt.alloc();
    for (text, is_label) in [
        ("a", true),
        ("s-z-0.lock", true),
        ("a/b", false),
        ("", false),
        (".", false),
        ("..", false),
        ("...", true),
        ("a b", false),
    ] {
        let found = Label::of(alloc, text.as_bytes())?;
        assert_eq!(rt; found.is_some(), is_label, "{text}");
        if let Some(label) = found {
            assert_eq!(rt; label.copy()?.bytes(), text.as_bytes());
        }
    }
    Ok(())
}

#[test]
fn names_are_words(rt: HostRuntime) -> Result<(), Fail> {
    let alloc = rt.alloc();
    for (text, is_name) in [
        ("k", true),
        ("a_1", true),
        ("a-b", false),
        ("", false),
        ("é", false),
    ] {
        assert_eq!(rt;
            Name::of(alloc, text.as_bytes())?.is_some(),
            is_name,
            "{text}"
        );
    }
    let long = [b'a'; 65];
    assert!(rt; Name::of(alloc, &long)?.is_none());
    assert!(rt; Name::of(alloc, &long[..64])?.is_some());
    Ok(())
}

#[test]
fn numbers_in_base_36(rt: HostRuntime) -> Result<(), Fail> {
    let alloc = rt.alloc();
    for (number, text) in [
        (0u64, "0"),
        (35, "z"),
        (36, "10"),
        (4294967295, "1z141z3"),
        (18446744073709551615, "3w5e11264sgsf"),
        (86400000000, "13owbuo0"),
    ] {
        let number = u128::from(number);
        assert_eq!(rt; to36(alloc, number)?.as_slice(), text.as_bytes(), "{text}");
        assert_eq!(rt; from36(text.as_bytes()), Some(number), "{text}");
    }
    for text in ["", "00", "Z", "0z", "f5lxx1zz5pnorynqglhzmsp34"] {
        assert_eq!(rt; from36(text.as_bytes()), None, "{text}");
    }
    Ok(())
}

#[test]
fn wide_numbers_in_base_36(rt: HostRuntime) -> Result<(), Fail> {
    let alloc = rt.alloc();
    let one = b"0000000000000000000000001";
    let greatest = b"f5lxx1zz5pnorynqglhzmsp33";
    assert_eq!(rt; to36_wide(alloc, 1)?.as_slice(), one.as_slice());
    assert_eq!(rt;
        to36_wide(alloc, u128::MAX)?.as_slice(),
        greatest.as_slice()
    );
    assert_eq!(rt; from36_wide(one), Some(1));
    assert_eq!(rt; from36_wide(greatest), Some(u128::MAX));
    assert_eq!(rt; from36_wide(b"f5lxx1zz5pnorynqglhzmsp34"), None);
    assert_eq!(rt; from36_wide(b"00000000000000000000000001"), None);
    Ok(())
}

#[test]
fn sources_in_memory_fail_where_listed(rt: HostRuntime) -> Result<(), Fail> {
    let alloc = rt.alloc();
    let mut failing = List::new(alloc);
    failing.push(1)?;
    let mut source = MemSource::new(Bytes::of(alloc, b"abcde")?, failing);
    let mut piece = [0u8; 3];
    assert_eq!(rt; source.read(&mut []), Ok(0));
    assert_eq!(rt; source.read(&mut piece), Ok(3));
    assert_eq!(rt; piece.as_slice(), b"abc".as_slice());
    assert_eq!(rt; source.read(&mut piece), Err(Failed));
    assert_eq!(rt;
        read_to(alloc, &mut source, 1)?.as_slice(),
        b"de".as_slice()
    );
    assert_eq!(rt; source.read(&mut piece), Ok(0));
    let mut none = StdSource::<File>::new(None);
    assert_eq!(rt; read_to(alloc, &mut none, 1).err(), Some(ReadFault::Source));
    Ok(())
}

#[test]
fn sinks_in_memory_fail_where_listed(rt: HostRuntime) -> Result<(), Fail> {
    let alloc = rt.alloc();
    let mut failing = List::new(alloc);
    failing.push(1)?;
    let mut sink = MemSink::new(alloc, failing);
    assert_eq!(rt; write_all(&mut sink, b"ab"), Ok(()));
    assert_eq!(rt; write_all(&mut sink, b"cd"), Err(Failed));
    assert_eq!(rt; write_all(&mut sink, b"ef"), Ok(()));
    assert_eq!(rt; sink.bytes(), b"abef".as_slice());
    let mut none = StdSink::<File>::new(None);
    assert_eq!(rt; write_all(&mut none, b"a"), Err(Failed));
    Ok(())
}

#[test]
fn lists_are_ordered_and_joined(rt: HostRuntime) -> Result<(), Fail> {
    let alloc = rt.alloc();
    let mut list = List::from_vec(Vec::from_slice(alloc, b"ab")?);
    list.append_list(List::from_vec(Vec::from_slice(alloc, b"c")?))?;
    assert!(rt; List::from_vec(Vec::from_slice(alloc, b"ab")?) < list);
    let mut counts = BTreeMap::new(alloc);
    counts.insert(list.copy()?, 3u8)?;
    assert_eq!(rt; counts.get(&list).copied(), Some(3));
    list.drop_last();
    assert_eq!(rt;
        List::from_vec(list.into_vec()).as_slice(),
        b"ab".as_slice()
    );
    Ok(())
}

#[test]
fn bytes_are_added_to_and_copies_stay(rt: HostRuntime) -> Result<(), Fail> {
    let alloc = rt.alloc();
    for count in [0usize, 13, 14, 15, 23, 64] {
        let mut plain = Vec::new(alloc);
        for _ in 0..count {
            plain.push(b'a')?;
        }
        let mut bytes = Bytes::of(alloc, plain.as_slice())?;
        let before = bytes.copy()?;
        for piece in [
            b"b".as_slice(),
            b"".as_slice(),
            b"cdefghijklmnopqrstuvwxyz".as_slice(),
        ] {
            bytes.append(piece)?;
            plain.extend_from_slice(piece)?;
            assert_eq!(rt; bytes.as_slice(), plain.as_slice());
        }
        assert!(rt; before < bytes);
        assert_eq!(rt; before.is_empty(), count == 0);
        bytes.append_two(b"1", b"2")?;
        bytes.push(b'3')?;
        assert_eq!(rt; bytes.len(), count + 28);
        assert_eq!(rt; before.len(), count);
        assert!(rt; plain.as_slice().starts_with(before.as_slice()));
    }
    Ok(())
}

#[test]
fn jobs_meters_and_lists(rt: HostRuntime) -> Result<(), Fail> {
    let alloc = rt.alloc();
    let Some(krate) = Name::of(alloc, b"k")? else {
        return Ok(());
    };
    let compiler = Compiler {
        version: VERSION,
        level: 1,
    };
    let text = Bytes::of(alloc, b"text")?;
    let job = Job {
        krate,
        compiler,
        text,
    };
    let copy = job.copy()?;
    assert_eq!(rt; copy.krate.bytes(), b"k".as_slice());
    assert_eq!(rt; copy.text.as_slice(), b"text".as_slice());
    let mut meter = Meter::new();
    meter.tick();
    rises_add_up();
    assert_eq!(rt; meter.count(), 1);
    let mut roomy = Roomy::new(alloc);
    roomy.make_room(2)?;
    roomy.push_kept(7u32);
    roomy.give_up(1);
    assert_eq!(rt; roomy.into_list().as_slice(), [7u32].as_slice());
    Ok(())
}
