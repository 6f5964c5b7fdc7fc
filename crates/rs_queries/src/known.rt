//! What is known of a tree's items.

ghost use Rattle.std.specs.Prelude.{◌≡◌, ◌++◌, [], map, IfOk, OnOk, slice_get, option_and_then};
ghost use Rattle.std.specs.List.{cons_option, filter_map};
ghost use Rattle.rs_lookup.specs.Keys.{plain};
ghost use Rattle.rs_lookup.specs.Places.{place_from};
ghost use Rattle.rs_tree.specs.Plain.{definition};
ghost use Rattle.rs_const.specs.Constants.{names};
ghost use Rattle.rs_queries.specs.Known.{entry_of, gives_of, kind_at, params_of, place_of, sig_of, typs_of};
ghost use Rattle.rs_queries.specs.State.{IsKnown};

use crate::answered::{Answered, all_answered, key_of, place_of};
use inc_base::{Copied, List, Memory};
use rs_const::{Entry, const_values};
use rs_lookup::{Key, Places};
use rs_names::Names;
use rs_tree::{Body, Const, Index, Param, Place, Placed, Sig, Typ};
use std::alloc::Global;

/// Each item with its answers, what its uses know of it, the constants, and their values in the same order.
#[derive(Drop)]
pub(crate) struct Known<'a> {
    pub answered: Vec<Answered<'a>>,
    pub sigs: List<(Place, Sig)>,
    pub constants: List<Entry>,
    pub values: Vec<Const>,
}

pub(crate) fn known_of<'a>(
    alloc: Global,
    placed: &'a [Placed],
    index: &'a Index,
) -> Result<Known<'a>, Memory>
    ensures { IfOk result (IsKnown index.now.items placed.now) }
{
    let names = Names::new(index)?;
    let answered = all_answered(alloc, placed, &names)?;
    let sigs = sigs_of(alloc, placed, &names)?;
    let constants = constants_of(alloc, &answered)?;
    let values = const_values(alloc, constants.as_slice())?;
    Ok(Known {
        answered,
        sigs,
        constants,
        values,
    })
}

fn sigs_of<'a>(
    alloc: Global,
    placed: &'a [Placed],
    names: &Names<'a>,
) -> Result<List<(Place, Sig)>, Memory>
    ensures { IfOk result (λ sigs. sigs ≡ map (sig_of names.now) placed.now) }
{
    let mut sigs = List::new(alloc);
    for one in placed {
        sigs.push(sig_of(alloc, one, names)?)?;
    }
    Ok(sigs)
}

fn sig_of<'a>(alloc: Global, placed: &'a Placed, names: &Names<'a>) -> Result<(Place, Sig), Memory>
    ensures { IfOk result (λ s. s ≡ sig_of names.now placed.now) }
{
    let place = place_of(placed)?;
    let params = params_of(alloc, &placed.item.body)?;
    let sig = Sig {
        kind: kind_of(placed, names),
        public: placed.item.public,
        params,
        gives: gives_of(&placed.item.body),
    };
    Ok((place, sig))
}

fn kind_of<'a>(placed: &'a Placed, names: &Names<'a>) -> u8
    ensures { result ≡ kind_at names.now (place_of placed.now) }
{
    match names.find(key_of(placed)) {
        None => 0,
        Some(item) => item.kind,
    }
}

fn params_of(alloc: Global, body: &Body) -> Result<List<Typ>, Memory>
    ensures { IfOk result (λ ts. ts ≡ params_of (definition body.now)) }
{
    match body {
        Body::Const { .. } => Ok(List::new(alloc)),
        Body::Func { params, .. } => typs_of(alloc, params.as_slice()),
    }
}

fn typs_of(alloc: Global, params: &[Param]) -> Result<List<Typ>, Memory>
    ensures { IfOk result (λ ts. ts ≡ typs_of params.now) }
{
    let mut typs = List::new(alloc);
    for param in params {
        typs.push(param.typ)?;
    }
    Ok(typs)
}

fn gives_of(body: &Body) -> Typ
    ensures { result ≡ gives_of (definition body.now) }
{
    match body {
        Body::Const { typ, .. } => *typ,
        Body::Func { gives, .. } => *gives,
    }
}

// ---- Constants.

#[tactic(auto, using(rs_const::proofs::Lists::filtered_more))]
fn constants_of(alloc: Global, answered: &[Answered<'_>]) -> Result<List<Entry>, Memory>
    ensures { IfOk result (λ es. es ≡ filter_map entry_of answered.now) }
{
    let mut constants = List::new(alloc);
    for one in answered {
        push_constant(&mut constants, one)?;
    }
    Ok(constants)
}

fn push_constant(to: &mut List<Entry>, one: &Answered<'_>) -> Result<(), Memory>
    ensures { OnOk result (to.new ≡ to.old ++ cons_option (entry_of one.now) []) }
{
    let item = &one.placed().item;
    match &item.body {
        Body::Func { .. } => Ok(()),
        Body::Const { .. } => {
            let place = one.place()?;
            let found = one.answers()?;
            to.push((place, item.copy()?, found))
        }
    }
}

pub(crate) fn constant_places<'a>(
    alloc: Global,
    constants: &'a [Entry],
) -> Result<Places<'a>, Memory>
    ensures { IfOk result (λ ps. ps ≡ names constants.now) }
{
    let mut keys = Vec::with_capacity(alloc, constants.len())?;
    for (place, _, _) in constants {
        keys.push((place.module.as_slice(), place.name.as_slice()))?;
    }
    Places::new(alloc, keys)
}

/// The value of the constant at a place, where one stands there.
pub(crate) fn value_at<'a>(places: &Places<'a>, values: &[Const], at: Key<'a>) -> Option<Const>
    ensures { result ≡ option_and_then (slice_get values.now) (place_from (plain at.entry) 0 places.now) }
{
    match places.find(at) {
        None => None,
        Some(at) => values.get(at).copied(),
    }
}
