ghost use Rattle.std.specs.Prelude.{◌≡◌, IfOk, OnOk, ◌++◌, ◌∷◌, []};
ghost use Rattle.std.specs.List.{cons_option};
ghost use Rattle.rs_const.specs.Constants.{named, named_by, names, sig_of, sigs_of, typ_of, Entry as Known};
ghost use Rattle.rs_const.specs.State.{AreNames};
ghost use Rattle.rs_lookup.specs.Places.{place_name};
ghost use Rattle.rs_tree.specs.Plain.{definition};

use inc_base::{Copied, List, Memory};
use rs_lookup::Places;
use rs_tree::{Body, Found, Item, Place, Sig, Typ};
use std::alloc::Global;

/// A constant: its place, its item, and what the paths of its expression lead to, in the order of the text.
pub type Entry = (Place, Item, List<Found>);

pub(crate) fn places_of<'a>(alloc: Global, known: &'a [Entry]) -> Result<Places<'a>, Memory>
    ensures { IfOk result (λ p. p ≡ names known.now) }
{
    let mut keys = Vec::with_capacity(alloc, known.len())?;
    for (place, _, _) in known {
        keys.push((place.module.as_slice(), place.name.as_slice()))?;
    }
    Places::new(alloc, keys)
}

// The constant that an answer leads to, by its position.
pub(crate) fn named<'a>(places: &Places<'a>, found: &'a Found) -> Option<usize>
    ensures { result ≡ named places.now found.now }
{
    match found {
        Found::Item(place) => places.find((place.module.as_slice(), place.name.as_slice())),
        Found::Local => None,
        Found::Private => None,
        Found::Absent => None,
    }
}

// What each expression names.
pub(crate) fn names_of<'a>(
    alloc: Global,
    known: &'a [Entry],
    places: &Places<'a>,
) -> Result<Vec<Vec<usize>>, Memory>
    requires { places.now ≡ names known.now }
    ensures { IfOk result (λ its. AreNames known.now its.items) }
{
    let mut lists = Vec::with_capacity(alloc, known.len())?;
    for (_, _, found) in known {
        lists.push(named_by(alloc, places, found.as_slice())?)?;
    }
    Ok(lists)
}

#[tactic(auto, using(crate::proofs::Lists::filtered_more))]
fn named_by<'a>(
    alloc: Global,
    places: &Places<'a>,
    found: &'a [Found],
) -> Result<Vec<usize>, Memory>
    ensures { IfOk result (λ its. its.items ≡ named_by places.now found.now) }
{
    let mut its = Vec::new(alloc);
    for answer in found {
        push_some(&mut its, named(places, answer))?;
    }
    Ok(its)
}

fn push_some(to: &mut Vec<usize>, at: Option<usize>) -> Result<(), Memory>
    ensures { OnOk result (to.new.items ≡ to.old.items ++ cons_option at []) }
{
    match at {
        None => Ok(()),
        Some(at) => {
            to.push(at)?;
            Ok(())
        }
    }
}

// What others know of each constant.
pub(crate) fn sigs_of(alloc: Global, known: &[Entry]) -> Result<List<(Place, Sig)>, Memory>
    ensures { IfOk result (λ its. its ≡ sigs_of known.now) }
{
    let mut sigs = List::new(alloc);
    for entry in known {
        push_sig(&mut sigs, entry)?;
    }
    Ok(sigs)
}

fn push_sig(to: &mut List<(Place, Sig)>, entry: &Entry) -> Result<(), Memory>
    ensures { OnOk result (to.new ≡ to.old ++ sig_of entry.now ∷ []) }
{
    let alloc = to.allocator();
    let place = entry.0.copy()?;
    let sig = Sig {
        kind: 0,
        public: entry.1.public,
        params: List::new(alloc),
        gives: typ_of(&entry.1.body),
    };
    to.push((place, sig))
}

fn typ_of(body: &Body) -> Typ
    ensures { result ≡ typ_of (definition body.now) }
{
    match body {
        Body::Const { typ, .. } => *typ,
        Body::Func { .. } => Typ::Unit,
    }
}
