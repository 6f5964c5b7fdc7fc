use inc_base::{Bytes, Compiler, Copied, Job, Name};
use inc_wire::{
    Cursor, Header, Print, forms_differ, job_hash, print_of, put_header, put_number, put_text,
    take_header,
};
use std::test::Fail;

/// The crate `k`, or a failure.
fn crate_k(rt: &HostRuntime) -> Result<Name, Fail> {
    Ok(Name::of(rt.alloc(), b"k")?.ok_or("no name")?)
}

const FIRST: Compiler = Compiler {
    version: 1,
    level: 1,
};

/// `INCC`, format 1, version 1, level 1 and the text `k`.
const HEADER: [u8; 16] = [73, 78, 67, 67, 0, 1, 0, 0, 0, 1, 1, 0, 0, 0, 1, 107];

#[test]
fn print_of_abc(rt: HostRuntime) {
    let want = [
        0xba, 0x78, 0x16, 0xbf, 0x8f, 0x01, 0xcf, 0xea, 0x41, 0x41, 0x40, 0xde, 0x5d, 0xae, 0x22,
        0x23, 0xb0, 0x03, 0x61, 0xa3, 0x96, 0x17, 0x7a, 0x9c, 0xb4, 0x10, 0xff, 0x61, 0xf2, 0x00,
        0x15, 0xad,
    ];
    assert_eq!(rt; print_of(b"abc"), Print(want));
    forms_differ();
}

#[test]
fn header_of_k(rt: HostRuntime) -> Result<(), Fail> {
    let header = Header {
        format: 1,
        compiler: FIRST,
        krate: crate_k(&rt)?,
    };
    let mut bytes = Bytes::new(rt.alloc());
    put_header(&mut bytes, &header.copy()?)?;
    assert_eq!(rt; bytes.as_slice(), HEADER.as_slice());
    bytes.append(b"more")?;
    let (read, count) = take_header(rt.alloc(), bytes.as_slice())?.ok_or("no header")?;
    assert_eq!(rt; count, 16);
    assert_eq!(rt; read.format, 1);
    assert_eq!(rt; read.compiler, FIRST);
    assert_eq!(rt; read.krate.bytes(), b"k".as_slice());
    Ok(())
}

#[test]
fn no_header(rt: HostRuntime) -> Result<(), Fail> {
    let level_two = [73, 78, 67, 67, 0, 1, 0, 0, 0, 1, 2, 0, 0, 0, 1, 107];
    let no_name = [73, 78, 67, 67, 0, 1, 0, 0, 0, 1, 1, 0, 0, 0, 1, 47];
    for bytes in [
        &HEADER[..15],
        level_two.as_slice(),
        no_name.as_slice(),
        b"".as_slice(),
    ] {
        assert!(rt; take_header(rt.alloc(), bytes)?.is_none());
    }
    Ok(())
}

#[test]
fn fields_come_back(rt: HostRuntime) -> Result<(), Fail> {
    let mut bytes = Bytes::new(rt.alloc());
    put_number(&mut bytes, 1, 255)?;
    put_number(&mut bytes, 2, 258)?;
    put_number(&mut bytes, 4, 16_909_060)?;
    put_number(&mut bytes, 8, 72_623_859_790_382_856)?;
    put_text(&mut bytes, b"text")?;
    let want = [
        255, 1, 2, 1, 2, 3, 4, 1, 2, 3, 4, 5, 6, 7, 8, 0, 0, 0, 4, 116, 101, 120, 116,
    ];
    assert_eq!(rt; bytes.as_slice(), want.as_slice());
    let mut cursor = Cursor::new(bytes.as_slice());
    assert_eq!(rt; cursor.number(1), Some(255));
    assert_eq!(rt; cursor.number(2), Some(258));
    assert_eq!(rt; cursor.number(4), Some(16_909_060));
    assert_eq!(rt; cursor.number(8), Some(72_623_859_790_382_856));
    assert_eq!(rt; cursor.text().ok_or("no text")?, b"text".as_slice());
    assert_eq!(rt; cursor.left(), 0);
    assert_eq!(rt; cursor.number(1), None);
    Ok(())
}

#[test]
fn hash_of_a_job(rt: HostRuntime) -> Result<(), Fail> {
    let job = Job {
        krate: crate_k(&rt)?,
        compiler: FIRST,
        text: Bytes::of(rt.alloc(), b"fn main() { println!(\"{}\", 7); }\n")?,
    };
    assert_eq!(rt;
        job_hash(rt.alloc(), &job)?,
        0xe1cf4566670b7c7ac0f09d9b53da44ad
    );
    Ok(())
}
