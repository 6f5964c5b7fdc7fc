ghost use Rattle.std.specs.Prelude.{◌≡◌, IfOk, map};
ghost use Rattle.rs_lookup.specs.Keys.{plain};
ghost use Rattle.rs_lookup.specs.Places.{place_name};
ghost use Rattle.rs_queries.specs.Known.{answered, place_of};

use inc_base::{Copied, List, Memory};
use rs_lookup::Key;
use rs_names::{Names, resolve_in};
use rs_tree::{Found, Place, Placed};
use std::alloc::Global;
use std::marker::Model;

/// An item, and what each of its paths leads to, in the order of the text. Contracts see it as the two.
#[derive(Drop)]
pub(crate) struct Answered<'a> {
    placed: &'a Placed,
    found: List<Found>,
}

impl<'a> Model for Answered<'a> {
    ghost use Rattle.std.specs.Prelude.{List};
    ghost use Rattle.std.specs.Coded.{coded×, coded_list};
    ghost use Rattle.rs_tree.specs.contracts.answers.Found as f;
    ghost use Rattle.rs_tree.specs.contracts.tree.Placed as p;
    ghost use Rattle.rs_tree.specs.declared.answers.Found.{Found};
    ghost use Rattle.rs_tree.specs.declared.tree.Placed.{Placed};

    ghost Value = { Placed × List Found };

    ghost coded = { coded× p.the_row.coded (coded_list f.the_row.coded) };

    ghost view = { λ a. (a.placed.now, a.found) };
}

impl<'a> Answered<'a> {
    pub(crate) fn of(
        alloc: Global,
        placed: &'a Placed,
        names: &Names<'a>,
    ) -> Result<Answered<'a>, Memory>
        ensures { IfOk result (λ a. a ≡ answered names.now placed.now) }
    {
        let found = resolve_in(alloc, &placed.item, placed.module.as_slice(), names)?;
        Ok(Answered { placed, found })
    }

    pub(crate) fn placed(&self) -> &'a Placed
        ensures { result.now ≡ self.now.0 }
    {
        self.placed
    }

    pub(crate) fn found(&self) -> &[Found]
        ensures { result.now ≡ self.now.1 }
    {
        self.found.as_slice()
    }

    pub(crate) fn list(&self) -> &List<Found>
        ensures { result.now ≡ self.now.1 }
    {
        &self.found
    }

    /// A copy of the answers.
    pub(crate) fn answers(&self) -> Result<List<Found>, Memory>
        ensures { IfOk result (λ fs. fs ≡ self.now.1) }
    {
        self.found.copy()
    }

    pub(crate) fn key(&self) -> Key<'_>
        ensures { plain result ≡ place_name (place_of self.now.0) }
    {
        key_of(self.placed)
    }

    pub(crate) fn place(&self) -> Result<Place, Memory>
        ensures { IfOk result (λ p. p ≡ place_of self.now.0) }
    {
        place_of(self.placed)
    }
}

pub(crate) fn key_of(placed: &Placed) -> Key<'_>
    ensures { plain result ≡ place_name (place_of placed.now) }
{
    (placed.module.as_slice(), placed.item.name.as_slice())
}

pub(crate) fn place_of(placed: &Placed) -> Result<Place, Memory>
    ensures { IfOk result (λ p. p ≡ place_of placed.now) }
{
    Ok(Place {
        module: placed.module.copy()?,
        name: placed.item.name.copy()?,
    })
}

/// Each item of a tree.
pub(crate) fn all_answered<'a>(
    alloc: Global,
    placed: &'a [Placed],
    names: &Names<'a>,
) -> Result<Vec<Answered<'a>>, Memory>
    ensures { IfOk result (λ all. all.items ≡ map (answered names.now) placed.now) }
{
    let mut all = Vec::with_capacity(alloc, placed.len())?;
    for one in placed {
        all.push(Answered::of(alloc, one, names)?)?;
    }
    Ok(all)
}
