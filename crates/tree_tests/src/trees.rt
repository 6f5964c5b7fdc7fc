//! Numbers and kinds, copies of trees, and the order of answers.

use crate::function::{FIRST, function};
use inc_base::{Bytes, Copied, List};
use rs_tree::{
    At, Body, Crate, Diag, Found, GREATEST, Kind, Place, Placed, Sig, Typ, answers_stand_at_leaves,
    is_token, kind_of, mirrors_differ, mirrors_have_parts, number_of, orders_are_total,
    parts_weigh_less,
};
use std::test::Fail;

#[test]
fn numbers_and_kinds(rt: HostRuntime) {
    assert_eq!(rt; number_of(b"1_000"), Some(1000));
    assert_eq!(rt; number_of(b"9223372036854775807"), Some(GREATEST));
    assert_eq!(rt; number_of(b"9223372036854775808"), None);
    assert_eq!(rt; number_of(b"1x"), None);
    let kinds = [
        (b"fn".as_slice(), Kind::Fn),
        (b"fnx", Kind::Name),
        (b"match", Kind::Reserved),
        (b"_a", Kind::Name),
        (b"1_", Kind::Number),
        (b"->", Kind::Arrow),
        (b"\"{}\"", Kind::Text),
    ];
    for (text, kind) in kinds {
        assert_eq!(rt; kind_of(text), Some(kind), "{text:?}");
        assert!(rt; is_token(text), "{text:?}");
    }
    for text in [b"".as_slice(), b"_", b"1x", b"<-", b"=>"] {
        assert_eq!(rt; kind_of(text), None, "{text:?}");
    }
}

#[test]
fn a_crate_is_copied(rt: HostRuntime) -> Result<(), Fail> {
    let mut modules = List::new(rt.alloc());
    modules.push(Bytes::of(rt.alloc(), b"m")?)?;
    let mut items = List::new(rt.alloc());
    items.push(Placed {
        module: Bytes::of(rt.alloc(), b"m")?,
        start: At { line: 1, column: 1 },
        item: function(&rt)?,
    })?;
    let copy = Crate { modules, items }.copy()?;
    assert_eq!(rt; copy.modules.len(), 1);
    assert_eq!(rt; copy.items.len(), 1);
    let item = &copy.items.as_slice()[0].item;
    assert_eq!(rt; item.name.as_slice(), b"f".as_slice());
    match &item.body {
        Body::Func { stmts, .. } => assert_eq!(rt; stmts.len(), 1),
        Body::Const { .. } => panic!(rt; "a constant"),
    }
    answers_stand_at_leaves::<u8, u8>();
    mirrors_differ();
    mirrors_have_parts();
    parts_weigh_less();
    Ok(())
}

fn diag(rt: &HostRuntime, line: u32, code: u16, text: &[u8]) -> Result<Diag, Fail> {
    Ok(Diag {
        at: At { line, column: 1 },
        code,
        text: Bytes::of(rt.alloc(), text)?,
    })
}

fn place(rt: &HostRuntime, module: &[u8], name: &[u8]) -> Result<Place, Fail> {
    Ok(Place {
        module: Bytes::of(rt.alloc(), module)?,
        name: Bytes::of(rt.alloc(), name)?,
    })
}

#[test]
fn answers_in_order(rt: HostRuntime) -> Result<(), Fail> {
    let first = diag(&rt, 1, 201, b"a")?;
    assert!(rt; first < diag(&rt, 1, 201, b"ab")?);
    assert!(rt; first > diag(&rt, 1, 101, b"b")?);
    assert!(rt; first < diag(&rt, 2, 101, b"a")?);
    assert!(rt; first == diag(&rt, 1, 201, b"a")?);
    assert!(rt; place(&rt, b"", b"z")? < place(&rt, b"m", b"f")?);
    assert!(rt; place(&rt, b"m", b"g")? > place(&rt, b"m", b"f")?);
    let found = Found::Item(place(&rt, b"m", b"f")?);
    assert!(rt; found == Found::Item(place(&rt, b"m", b"f")?));
    assert!(rt; found != Found::Absent);
    let mut params = List::new(rt.alloc());
    params.push(Typ::Int)?;
    let sig = Sig {
        kind: 1,
        public: false,
        params,
        gives: Typ::Unit,
    };
    assert!(rt; sig == sig.copy()?);
    orders_are_total();
    Ok(())
}
