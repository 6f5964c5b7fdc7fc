//! The diagnostics of a text's items, as lines.

use inc_base::{Copied, List, Memory};
use rs_check::check_item;
use rs_names::{index, resolve_item};
use rs_text::read_text;
use rs_tree::{At, Body, Const, Crate, Diag, Param, Place, Placed, Sig, Typ};
use std::alloc::{AllocError, Global};

fn types(alloc: Global, params: &List<Param>) -> Result<List<Typ>, Memory> {
    let mut types = List::new(alloc);
    for param in params.as_slice() {
        types.push(param.typ)?;
    }
    Ok(types)
}

fn sig(alloc: Global, placed: &Placed) -> Result<Sig, Memory> {
    let (kind, params, gives) = match &placed.item.body {
        Body::Const { typ, .. } => (0, List::new(alloc), *typ),
        Body::Func { params, gives, .. } => (1, types(alloc, params)?, *gives),
    };
    Ok(Sig {
        kind,
        public: placed.item.public,
        params,
        gives,
    })
}

fn sigs(alloc: Global, tree: &Crate) -> Result<List<(Place, Sig)>, Memory> {
    let mut sigs = List::new(alloc);
    for placed in tree.items.as_slice() {
        let place = Place {
            module: placed.module.copy()?,
            name: placed.item.name.copy()?,
        };
        sigs.push((place, sig(alloc, placed)?))?;
    }
    Ok(sigs)
}

/// A diagnostic of an item that begins there, with a line feed.
fn push_line(to: &mut String, start: At, diag: &Diag) -> Result<(), AllocError> {
    let kind = if diag.code < 200 {
        "error[E"
    } else {
        "warning[W"
    };
    let first = if diag.at.line == 0 { start.column } else { 0 };
    let line = u64::from(start.line) + u64::from(diag.at.line);
    let column = u64::from(first) + u64::from(diag.at.column);
    let code = diag.code;
    write!(to, "{kind}{code}] {line}:{column}: ")?;
    match str::from_utf8(diag.text.as_slice()) {
        Ok(text) => to.push_str(text)?,
        Err(_) => to.push_str("?")?,
    }
    to.push_str("\n")
}

/// The lines of a text's items, whose constants all have this value; none of a text that has no tree.
pub fn lines_of(alloc: Global, text: &str, value: Const) -> Option<String> {
    let tree = read_text(alloc, text.as_bytes()).ok()?;
    let index = index(&tree).ok()?;
    let sigs = sigs(alloc, &tree).ok()?;
    let mut lines = String::new(alloc);
    for placed in tree.items.as_slice() {
        let module = placed.module.as_slice();
        let found = resolve_item(&placed.item, module, &index).ok()?;
        let diags = check_item(&placed.item, module, &index, &found, &sigs, Some(value)).ok()?;
        for diag in diags.as_slice() {
            push_line(&mut lines, placed.start, diag).ok()?;
        }
    }
    Some(lines)
}
