ghost use Rattle.std.specs.Prelude.{◌≡◌, ◌++◌, [], ◌∷◌, codes, decimal, IfOk, OnOk};
ghost use Rattle.rs_diag.specs.Faults.{around, code, diag, module_text, path_text, plain, text, typ_text, want_text};

use inc_base::{Bytes, Memory};
use itoa::Buffer;
use rs_tree::{At, Diag, Path, Typ};
use std::alloc::Global;

/// What an expression must have: a type, or any type but that of what has no value.
#[derive(Clone, Copy, Debug, PartialEq, Eq)]
pub enum Want {
    Of(Typ),
    Value,
}

/// What is wrong at a place, with what its text names (docs/LANGUAGE.md, "Diagnostics").
#[derive(Clone, Copy, Debug, Drop)]
pub enum Fault<'a> {
    /// A path that leads nowhere.
    Lost(&'a Path),
    /// An assignment to a name that is no local.
    NoLocal(&'a [u8]),
    /// A path to an item that isn't visible there.
    Private(&'a Path),
    /// An expression of another type than it must have.
    Mistyped(Want, Typ),
    /// A call with another number of arguments than its function has parameters: the wanted number, and the found one.
    Count(usize, usize),
    /// An assignment to a parameter, or to a variable without `mut`.
    Fixed(&'a [u8]),
    /// A call of what is no function.
    NoFunction(&'a Path),
    /// A function where a value must stand.
    Function(&'a Path),
    /// A constant that needs itself.
    Cycle(&'a [u8]),
    /// A constant whose value leaves the numbers of 64 bits.
    Overflow(&'a [u8]),
    /// A constant that divides by zero.
    DivZero(&'a [u8]),
    /// A call in a constant.
    ConstCall,
    /// A function with a type whose end gives no value.
    NoValue(&'a [u8]),
    /// No function `main` in the root.
    NoMain,
    /// The root's `main` with parameters or a type.
    BadMain,
    /// A parameter with the name of an earlier one.
    ParamTwice(&'a [u8]),
    /// A variable or parameter with the name of a constant of its module.
    Constant(&'a [u8]),
    /// A variable or parameter that no path leads to.
    Unused(&'a [u8]),
    /// A function that `main` doesn't reach by calls.
    Dead(&'a [u8]),
}

impl<'a> Fault<'a> {
    /// Its number: 101 for E101, 201 for W201.
    pub fn code(&self) -> u16
        ensures { result ≡ code (plain self.now) }
    {
        match self {
            Fault::Lost(_) | Fault::NoLocal(_) => 101,
            Fault::Private(_) => 102,
            Fault::Mistyped(_, _) => 103,
            Fault::Count(_, _) => 104,
            Fault::Fixed(_) => 105,
            Fault::NoFunction(_) => 106,
            Fault::Function(_) => 107,
            Fault::Cycle(_) => 108,
            Fault::Overflow(_) => 109,
            Fault::DivZero(_) => 110,
            Fault::ConstCall => 111,
            Fault::NoValue(_) => 112,
            Fault::NoMain => 113,
            Fault::BadMain => 114,
            Fault::ParamTwice(_) => 115,
            Fault::Constant(_) => 117,
            Fault::Unused(_) => 201,
            Fault::Dead(_) => 202,
        }
    }

    /// Its text, without its number and place.
    pub fn text(&self, alloc: Global) -> Result<Bytes, Memory>
        ensures { IfOk result (λ b. b ≡ text (plain self.now)) }
    {
        match self {
            Fault::Lost(p) => about_path(alloc, b"cannot find ", p, b""),
            Fault::NoLocal(name) => about(alloc, b"cannot find ", name, b""),
            Fault::Private(p) => about_path(alloc, b"", p, b" is private"),
            Fault::Mistyped(want, found) => types(alloc, *want, *found),
            Fault::Count(want, found) => counts(alloc, *want, *found),
            Fault::Fixed(name) => about(alloc, b"cannot assign to ", name, b""),
            Fault::NoFunction(p) => about_path(alloc, b"", p, b" is not a function"),
            Fault::Function(p) => about_path(alloc, b"", p, b" is a function"),
            Fault::Cycle(name) => about(alloc, b"cycle in constant ", name, b""),
            Fault::Overflow(name) => about(alloc, b"constant ", name, b" overflows"),
            Fault::DivZero(name) => about(alloc, b"constant ", name, b" divides by zero"),
            Fault::ConstCall => Bytes::of(alloc, b"call in a constant"),
            Fault::NoValue(name) => about(alloc, b"missing value at the end of ", name, b""),
            Fault::NoMain => Bytes::of(alloc, b"no function `main`"),
            Fault::BadMain => Bytes::of(alloc, b"`main` takes nothing and gives nothing"),
            Fault::ParamTwice(name) => about(alloc, b"parameter ", name, b" twice"),
            Fault::Constant(name) => about(alloc, b"", name, b" is a constant"),
            Fault::Unused(name) => about(alloc, b"unused variable ", name, b""),
            Fault::Dead(name) => about(alloc, b"function ", name, b" is never used"),
        }
    }

    /// The diagnostic at a place.
    pub fn at(&self, alloc: Global, at: At) -> Result<Diag, Memory>
        ensures { IfOk result (λ d. d ≡ diag at (plain self.now)) }
    {
        let text = self.text(alloc)?;
        Ok(Diag {
            at,
            code: self.code(),
            text,
        })
    }
}

fn about(alloc: Global, before: &[u8], name: &[u8], after: &[u8]) -> Result<Bytes, Memory>
    ensures { IfOk result (λ b. b ≡ around before.now name.now after.now) }
{
    let mut text = Bytes::of(alloc, before)?;
    text.append(b"`")?;
    text.append(name)?;
    text.append(b"`")?;
    text.append(after)?;
    Ok(text)
}

fn about_path(alloc: Global, before: &[u8], p: &Path, after: &[u8]) -> Result<Bytes, Memory>
    ensures { IfOk result (λ b. b ≡ around before.now (path_text p.now) after.now) }
{
    let mut name = Bytes::of(alloc, if p.rooted { b"crate::" } else { b"" })?;
    put_module(&mut name, &p.module)?;
    name.append(p.name.as_slice())?;
    about(alloc, before, name.as_slice(), after)
}

fn put_module(to: &mut Bytes, module: &Option<Bytes>) -> Result<(), Memory>
    ensures { OnOk result (to.new ≡ to.old ++ module_text module.now) }
{
    match module {
        None => Ok(()),
        Some(m) => {
            to.append(m.as_slice())?;
            to.append(b"::")
        }
    }
}

fn types(alloc: Global, want: Want, found: Typ) -> Result<Bytes, Memory>
    ensures { IfOk result (λ b. b ≡ codes "expected " ++ want_text want ++ codes ", found " ++ typ_text found) }
{
    let mut text = Bytes::of(alloc, b"expected ")?;
    text.append(wanted(want))?;
    text.append(b", found ")?;
    text.append(typ(found))?;
    Ok(text)
}

fn counts(alloc: Global, want: usize, found: usize) -> Result<Bytes, Memory>
    ensures { IfOk result (λ b. b ≡ codes "expected " ++ decimal want ++ codes " arguments, found " ++ decimal found) }
{
    let mut text = Bytes::of(alloc, b"expected ")?;
    put_number(&mut text, want)?;
    text.append(b" arguments, found ")?;
    put_number(&mut text, found)?;
    Ok(text)
}

fn put_number(to: &mut Bytes, n: usize) -> Result<(), Memory>
    ensures { OnOk result (to.new ≡ to.old ++ decimal n) }
{
    let mut number = Buffer::new();
    to.append(number.format(n).as_bytes())
}

fn wanted(want: Want) -> &'static [u8]
    ensures { result.now ≡ want_text want }
{
    match want {
        Want::Of(t) => typ(t),
        Want::Value => b"a value",
    }
}

fn typ(t: Typ) -> &'static [u8]
    ensures { result.now ≡ typ_text t }
{
    match t {
        Typ::Unit => b"()",
        Typ::Int => b"i64",
        Typ::Bool => b"bool",
    }
}
