//! The bytes of one value of each form, read back, and bytes that no value has.

use crate::function::{LATER, function};
use inc_base::{Bytes, Copied, List};
use rs_forms::{
    fault_bytes, forms_are_answered, forms_are_read_back, forms_differ, index_bytes, ir_bytes,
    item_bytes, read_fault, read_index, read_ir, read_item, read_sig, sig_bytes,
};
use rs_tree::{Index, IndexFault, IndexItem, Instr, Ir, Place, Sig, TextFault, Typ};
use std::test::Fail;

#[test]
fn tokens_of_an_item(rt: HostRuntime) -> Result<(), Fail> {
    let bytes = item_bytes(&function(&rt)?)?;
    let want = [
        0, 0, 0, 2, 0, 0, 0, 0, 0, 0, 0, 0, 0, 0, 0, 2, 102, 110, 0, 0, 0, 1, 0, 0, 1, 2, 0, 0, 0,
        1, 102,
    ];
    assert_eq!(rt; bytes.as_slice(), want.as_slice());
    let tokens = read_item(rt.alloc(), bytes.as_slice())?.ok_or("no item")?;
    assert_eq!(rt; tokens.len(), 2);
    assert_eq!(rt; tokens.as_slice()[1].at, LATER);
    assert_eq!(rt; tokens.as_slice()[1].text.as_slice(), b"f".as_slice());
    Ok(())
}

#[test]
fn index_of_one_item(rt: HostRuntime) -> Result<(), Fail> {
    let mut modules = List::new(rt.alloc());
    modules.push(Bytes::of(rt.alloc(), b"m")?)?;
    let mut items = List::new(rt.alloc());
    items.push(IndexItem {
        module: Bytes::of(rt.alloc(), b"m")?,
        name: Bytes::of(rt.alloc(), b"f")?,
        kind: 2,
        public: true,
    })?;
    let bytes = index_bytes(&Index { modules, items })?;
    let want = [
        1, 0, 0, 0, 1, 0, 0, 0, 1, 109, 0, 0, 0, 1, 0, 0, 0, 1, 109, 0, 0, 0, 1, 102, 2, 1,
    ];
    assert_eq!(rt; bytes.as_slice(), want.as_slice());
    let index = read_index(rt.alloc(), bytes.as_slice())?.ok_or("no index")?;
    assert_eq!(rt; index.modules.len(), 1);
    assert_eq!(rt; index.items.len(), 1);
    assert_eq!(rt; index.items.as_slice()[0].kind, 2);
    Ok(())
}

#[test]
fn a_name_twice(rt: HostRuntime) -> Result<(), Fail> {
    let fault = IndexFault {
        at: LATER,
        code: TextFault::Twice,
        name: Bytes::of(rt.alloc(), b"f")?,
    };
    let bytes = fault_bytes(&fault.copy()?)?;
    let want = [0, 0, 0, 0, 1, 0, 0, 1, 2, 4, 0, 0, 0, 1, 102];
    assert_eq!(rt; bytes.as_slice(), want.as_slice());
    let read = read_fault(rt.alloc(), bytes.as_slice())?.ok_or("no fault")?;
    assert_eq!(rt; read.at, LATER);
    assert_eq!(rt; read.code, TextFault::Twice);
    assert_eq!(rt; read.name.as_slice(), b"f".as_slice());
    assert!(rt; read_index(rt.alloc(), bytes.as_slice())?.is_none());
    forms_differ();
    forms_are_read_back();
    forms_are_answered();
    Ok(())
}

#[test]
fn signature_of_a_function(rt: HostRuntime) -> Result<(), Fail> {
    let mut params = List::new(rt.alloc());
    params.push(Typ::Int)?;
    params.push(Typ::Bool)?;
    let sig = Sig {
        kind: 1,
        public: false,
        params,
        gives: Typ::Unit,
    };
    let bytes = sig_bytes(&sig)?;
    assert_eq!(rt; bytes.as_slice(), [1, 0, 0, 0, 0, 2, 1, 2, 0].as_slice());
    let read = read_sig(rt.alloc(), bytes.as_slice())?.ok_or("no signature")?;
    assert_eq!(rt; read.kind, 1);
    assert_eq!(rt; read.params.as_slice(), [Typ::Int, Typ::Bool].as_slice());
    assert_eq!(rt; read.gives, Typ::Unit);
    Ok(())
}

/// An instruction of each operand.
fn instructions(rt: &HostRuntime) -> Result<List<Instr>, Fail> {
    let mut code = List::new(rt.alloc());
    code.push(Instr::Push(-2))?;
    code.push(Instr::Store(258))?;
    code.push(Instr::Label(1))?;
    code.push(Instr::Jump(0x2a, 1))?;
    code.push(Instr::Call(
        true,
        Place {
            module: Bytes::new(rt.alloc()),
            name: Bytes::of(rt.alloc(), b"f")?,
        },
    ))?;
    code.push(Instr::Plain(0x31))?;
    Ok(code)
}

#[test]
fn intermediate_form(rt: HostRuntime) -> Result<(), Fail> {
    let ir = Ir {
        inline: true,
        params: 1,
        slots: 259,
        code: instructions(&rt)?,
    };
    let bytes = ir_bytes(&ir)?;
    let want = [
        1, 0, 1, 1, 3, 0, 0, 0, 6, 1, 255, 255, 255, 255, 255, 255, 255, 254, 3, 1, 2, 5, 0, 1, 42,
        0, 1, 48, 1, 0, 0, 0, 0, 0, 0, 0, 1, 102, 49,
    ];
    assert_eq!(rt; bytes.as_slice(), want.as_slice());
    let read = read_ir(rt.alloc(), bytes.as_slice())?.ok_or("no form")?;
    assert_eq!(rt; read.slots, 259);
    assert_eq!(rt; ir_bytes(&read)?.as_slice(), want.as_slice());
    Ok(())
}

#[test]
fn no_value_has_these_bytes(rt: HostRuntime) -> Result<(), Fail> {
    for bytes in [
        b"".as_slice(),
        &[0, 0, 0],
        &[0, 0, 0, 0, 0],
        &[0, 0, 0, 1],
        &[255, 255, 255, 255, 0, 0, 0, 0, 0, 0, 0, 0, 0, 0, 0, 0],
    ] {
        assert!(rt; read_item(rt.alloc(), bytes)?.is_none(), "{bytes:?}");
    }
    for bytes in [
        [0, 0, 0, 0, 0, 0, 0, 0, 0].as_slice(),
        &[1, 0, 0, 0, 0, 0, 0, 0, 1],
        &[1, 0, 0, 0, 0, 0, 0, 0],
    ] {
        assert!(rt; read_index(rt.alloc(), bytes)?.is_none(), "{bytes:?}");
    }
    for bytes in [
        [0, 0, 0, 0, 1, 0, 0, 0, 1, 5, 0, 0, 0, 0].as_slice(),
        &[1, 0, 0, 0, 1, 0, 0, 0, 1, 4, 0, 0, 0, 0],
        &[0, 0, 0, 0, 1, 0, 0, 0, 1, 1, 0, 0, 0, 0, 0],
    ] {
        assert!(rt; read_fault(rt.alloc(), bytes)?.is_none(), "{bytes:?}");
    }
    for bytes in [
        [1, 2, 0, 0, 0, 0, 0].as_slice(),
        &[1, 0, 0, 0, 0, 0, 3],
        &[1, 0, 0, 0, 0, 0, 0, 0],
    ] {
        assert!(rt; read_sig(rt.alloc(), bytes)?.is_none(), "{bytes:?}");
    }
    for code in [0, 6, 15, 29, 34, 43, 51, 255] {
        let bytes = [0, 0, 0, 0, 0, 0, 0, 0, 1, code];
        assert!(rt; read_ir(rt.alloc(), &bytes)?.is_none(), "{code}");
    }
    Ok(())
}
