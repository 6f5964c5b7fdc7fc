//! The intermediate forms of items.

ghost use Rattle.std.specs.Prelude.{◌≡◌, map, IfOk};
ghost use Rattle.rs_queries.specs.Built.{const_by, consts_of, form_of};

use crate::answered::Answered;
use crate::known::{constant_places, value_at};
use inc_base::{Copied, List, Memory};
use rs_const::Entry;
use rs_lookup::Places;
use rs_lower::Lowering;
use rs_tree::{Const, Ir, Place, Sig};
use std::alloc::Global;

/// Each constant's place, and its value.
pub(crate) fn consts_of(
    alloc: Global,
    constants: &[Entry],
    values: &[Const],
) -> Result<List<(Place, Const)>, Memory>
    ensures { IfOk result (λ cs. cs ≡ consts_of constants.now values.now) }
{
    let places = constant_places(alloc, constants)?;
    let consts = consts_by(alloc, &places, constants, values)?;
    Ok(consts)
}

fn consts_by<'a>(
    alloc: Global,
    places: &Places<'a>,
    constants: &'a [Entry],
    values: &[Const],
) -> Result<List<(Place, Const)>, Memory>
    ensures { IfOk result (λ cs. cs ≡ map (const_by places.now values.now) constants.now) }
{
    let mut consts = List::new(alloc);
    for entry in constants {
        consts.push(const_by(places, values, entry)?)?;
    }
    Ok(consts)
}

fn const_by<'a>(
    places: &Places<'a>,
    values: &[Const],
    entry: &'a Entry,
) -> Result<(Place, Const), Memory>
    ensures { IfOk result (λ c. c ≡ const_by places.now values.now entry.now) }
{
    let at = &entry.0;
    let value = value_at(places, values, (at.module.as_slice(), at.name.as_slice()));
    Ok((at.copy()?, value.unwrap_or(Const::Bad)))
}

/// Each item, and its form at a level. Signatures and values are made ready once for all.
pub(crate) fn forms_of<'a>(
    alloc: Global,
    answered: &'a [Answered<'_>],
    sigs: &'a List<(Place, Sig)>,
    consts: &'a List<(Place, Const)>,
    level: u8,
) -> Result<List<(Place, Ir)>, Memory>
    ensures { IfOk result (λ fs. fs ≡ map (form_of level sigs.now consts.now) answered.now) }
{
    let lowering = Lowering::new(sigs, consts)?;
    let forms = forms_by(alloc, answered, &lowering, level)?;
    Ok(forms)
}

fn forms_by<'a>(
    alloc: Global,
    answered: &'a [Answered<'_>],
    lowering: &Lowering<'a>,
    level: u8,
) -> Result<List<(Place, Ir)>, Memory>
    ensures { IfOk result (λ fs. fs ≡ map (form_of level lowering.now.sigs lowering.now.consts) answered.now) }
{
    let mut forms = List::new(alloc);
    for one in answered {
        forms.push(form_of(one, lowering, level)?)?;
    }
    Ok(forms)
}

fn form_of<'a>(
    one: &'a Answered<'_>,
    lowering: &Lowering<'a>,
    level: u8,
) -> Result<(Place, Ir), Memory>
    ensures { IfOk result (λ f. f ≡ form_of level lowering.now.sigs lowering.now.consts one.now) }
{
    let place = one.place()?;
    let form = lowering.lower(&one.placed().item, one.list(), level)?;
    Ok((place, form))
}
