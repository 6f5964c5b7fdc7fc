//! Signatures.

ghost use Rattle.std.specs.Prelude.{◌≡◌, IfOk};
ghost use Rattle.rs_forms.specs.Forms.{sig_form};
ghost use Rattle.rs_names.specs.Indexed.{is_root_main, kind_of};
ghost use Rattle.rs_plans.specs.Plans.{is_constant, sig_by};
ghost use Rattle.rs_queries.specs.Known.{gives_of, params_of, typs_of};
ghost use Rattle.rs_tree.specs.Plain.{definition};
ghost use Rattle.rs_provider.specs.Rests.{after, rest};
ghost use Rattle.rs_provider.specs.declared.state.State.TheVariants as state;

use crate::desk::Desk;
use crate::state::State;
use inc_base::{Bytes, List, Memory};
use rs_forms::sig_bytes;
use rs_tree::{Body, Item, Param, Place, Sig, Typ};
use std::alloc::Global;

/// The signature of the item that a value is.
pub(crate) fn sig_fed(desk: &Desk, at: Place, value: &Bytes) -> Result<State, Memory>
    ensures { IfOk result (λ s. rest s ≡ after (rest (state.Sig at)) value.now) }
{
    match desk.item(&at, value) {
        Err(refused) => {
            drop(at);
            Err(refused)
        }
        Ok(None) => {
            drop(at);
            Ok(State::Done(Bytes::new(value.allocator())))
        }
        Ok(Some(item)) => {
            let sig = sig_value(&at, item.as_ref());
            drop(at);
            drop(item);
            Ok(State::Done(sig?))
        }
    }
}

fn sig_value(at: &Place, item: &Item) -> Result<Bytes, Memory>
    ensures { IfOk result (λ v. v ≡ sig_form (sig_by at.now item.now)) }
{
    let sig = sig_by(at, item)?;
    sig_bytes(&sig)
}

fn sig_by(at: &Place, item: &Item) -> Result<Sig, Memory>
    ensures { IfOk result (λ s. s ≡ sig_by at.now item.now) }
{
    let main = is_root_main(at.module.as_slice(), at.name.as_slice());
    let params = params_of(item.tokens.allocator(), &item.body)?;
    Ok(Sig {
        kind: kind_of(main, &item.body),
        public: item.public,
        params,
        gives: gives_of(&item.body),
    })
}

fn is_root_main(module: &[u8], name: &[u8]) -> bool
    ensures { result ≡ is_root_main module.now name.now }
{
    module == b"".as_slice() && name == b"main".as_slice()
}

fn kind_of(main: bool, body: &Body) -> u8
    ensures { result ≡ kind_of main (definition body.now) }
{
    match body {
        Body::Const { .. } => 0,
        Body::Func { inline, .. } => { if *inline && !main { 2 } else { 1 } }
    }
}

fn params_of(alloc: Global, body: &Body) -> Result<List<Typ>, Memory>
    ensures { IfOk result (λ ts. ts ≡ params_of (definition body.now)) }
{
    match body {
        Body::Const { .. } => Ok(List::new(alloc)),
        Body::Func { params, .. } => typs_of(alloc, params.as_slice()),
    }
}

fn typs_of(alloc: Global, params: &[Param]) -> Result<List<Typ>, Memory>
    ensures { IfOk result (λ ts. ts ≡ typs_of params.now) }
{
    let mut typs = List::new(alloc);
    for param in params {
        typs.push(param.typ)?;
    }
    Ok(typs)
}

fn gives_of(body: &Body) -> Typ
    ensures { result ≡ gives_of (definition body.now) }
{
    match body {
        Body::Const { typ, .. } => *typ,
        Body::Func { gives, .. } => *gives,
    }
}

/// Whether an item is a constant, by its tokens.
pub(crate) fn is_constant(item: &Item) -> bool
    ensures { result ≡ is_constant (definition item.now.body) }
{
    match &item.body {
        Body::Const { .. } => true,
        Body::Func { .. } => false,
    }
}
