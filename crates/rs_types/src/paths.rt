ghost use Rattle.std.specs.Prelude.{◌≡◌, ◌∷◌, [], IfOk, OnOk};
ghost use Rattle.std.specs.Option.{option_copied};
ghost use Rattle.rs_diag.specs.Faults.{diag, plain};
ghost use Rattle.rs_tree.specs.declared.answers.Found.TheVariants.{Local};
ghost use Rattle.rs_types.specs.Types.{call_wrongs, called, callee, given, item_typ, function_as_value, local_of, local_typ, no_callee, path_reads, path_typ, path_wrongs, sig_of, wants, wrong_callee, counted};
ghost use Rattle.rs_types.specs.State.{context, noted, said, taken, with_reads};

use crate::needs::type_if;
use crate::typer::Typer;
use inc_base::Memory;
use rs_diag::Fault;
use rs_tree::{Found, Path, Place, Sig, Typ};

impl<'a, 'b> Typer<'a, 'b> {
    // The type of a path as a value.
    pub(crate) fn value(
        &mut self,
        path: &'a Path,
        found: Option<&'a Found>,
    ) -> Result<Option<Typ>, Memory>
        ensures typ { IfOk result (λ t. t ≡ path_typ (context self.old) path.now (taken found.entry)) }
        ensures said { OnOk result (self.new ≡ said (path_wrongs (context self.old) path.now (taken found.entry)) self.old) }
    {
        match found {
            Some(Found::Local) => Ok(self.local(path)),
            Some(Found::Item(place)) => self.item(path, place),
            Some(Found::Private) => {
                self.say(path.at, Fault::Private(path))?;
                Ok(None)
            }
            None | Some(Found::Absent) => {
                self.say(path.at, Fault::Lost(path))?;
                Ok(None)
            }
        }
    }

    fn local(&self, path: &'a Path) -> Option<Typ>
        ensures { result ≡ local_typ (local_of (context self.now) path.now.name) }
    {
        let number = self.scope.find(path.name.as_slice())?;
        self.locals.as_slice().get(number)?.typ
    }

    fn item(&mut self, path: &'a Path, place: &'a Place) -> Result<Option<Typ>, Memory>
        ensures typ { IfOk result (λ t. t ≡ item_typ (sig_of (context self.old) place.now)) }
        ensures said { OnOk result (self.new ≡ said (function_as_value path.now (sig_of (context self.old) place.now)) self.old) }
    {
        match self.sig(place) {
            None => Ok(None),
            Some(sig) => {
                if sig.kind == 0 {
                    return Ok(Some(sig.gives));
                }
                self.say(path.at, Fault::Function(path))?;
                Ok(None)
            }
        }
    }

    fn sig(&self, place: &'a Place) -> Option<&'a Sig>
        ensures { option_copied result ≡ sig_of (context self.now) place.now }
    {
        self.sigs
            .find((place.module.as_slice(), place.name.as_slice()))
    }

    // Notes that a path leads to a local.
    pub(crate) fn read(&mut self, path: &'a Path, found: Option<&'a Found>) -> Result<(), Memory>
        ensures { OnOk result (self.new ≡ with_reads (path_reads self.old.scope path.now (taken found.entry)) self.old) }
    {
        match found {
            Some(Found::Local) => match self.scope.find(path.name.as_slice()) {
                None => Ok(()),
                Some(number) => self.reads.push(number),
            },
            None | Some(Found::Item(_)) | Some(Found::Private) | Some(Found::Absent) => Ok(()),
        }
    }

    // The function that a call with this many arguments calls.
    pub(crate) fn callee(
        &mut self,
        path: &'a Path,
        found: Option<&'a Found>,
        count: usize,
    ) -> Result<Option<&'a Sig>, Memory>
        ensures sig { IfOk result (λ s. option_copied s ≡ called (context self.old) (taken found.entry) count) }
        ensures said { OnOk result (self.new ≡ said (call_wrongs (context self.old) path.now (taken found.entry) count) self.old) }
    {
        if self.constant {
            self.say(path.at, Fault::ConstCall)?;
            return Ok(None);
        }
        match self.function(found) {
            None => {
                self.say(path.at, no_callee(path, found))?;
                Ok(None)
            }
            Some(sig) => self.counted(path, sig, count),
        }
    }

    fn function(&self, found: Option<&'a Found>) -> Option<&'a Sig>
        ensures { option_copied result ≡ callee (context self.now) (taken found.entry) }
    {
        match found {
            Some(Found::Item(place)) => {
                let sig = self.sig(place)?;
                if sig.kind == 0 { None } else { Some(sig) }
            }
            None | Some(Found::Local) | Some(Found::Private) | Some(Found::Absent) => None,
        }
    }

    fn counted(
        &mut self,
        path: &'a Path,
        sig: &'a Sig,
        count: usize,
    ) -> Result<Option<&'a Sig>, Memory>
        ensures sig { IfOk result (λ s. option_copied s ≡ counted count (Some sig.now)) }
        ensures said { OnOk result (self.new ≡ said (wrong_callee path.now Local count (Some sig.now)) self.old) }
    {
        let wanted = sig.params.len();
        if wanted == count {
            return Ok(Some(sig));
        }
        self.say(path.at, Fault::Count(wanted, count))?;
        Ok(None)
    }
}

fn no_callee<'a>(path: &'a Path, found: Option<&'a Found>) -> Fault<'a>
    ensures { diag path.now.at (plain result) ∷ [] ≡ no_callee path.now (taken found.entry) }
{
    match found {
        Some(Found::Local) | Some(Found::Item(_)) => Fault::NoFunction(path),
        Some(Found::Private) => Fault::Private(path),
        None | Some(Found::Absent) => Fault::Lost(path),
    }
}

pub(crate) fn wants<'a>(sig: Option<&'a Sig>) -> &'a [Typ]
    ensures { result.now ≡ wants (option_copied sig.entry) }
{
    match sig {
        None => &[],
        Some(sig) => sig.params.as_slice(),
    }
}

pub(crate) fn given(sig: Option<&Sig>, fit: bool) -> Option<Typ>
    ensures { result ≡ given (option_copied sig.entry) fit }
{
    match sig {
        None => None,
        Some(sig) => type_if(fit, sig.gives),
    }
}
