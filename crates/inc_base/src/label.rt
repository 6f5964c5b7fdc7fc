ghost use Rattle.std.specs.Prelude.{◌≡◌, ◌↔◌, IsTrue, IfOk, IfSome, IfNone};
ghost use Rattle.std.proofs.Common.{rules};
ghost use Rattle.inc_base.specs.Texts.{IsLabel, IsName, is_label_byte, is_name_byte};
ghost use Rattle.std.specs.Prelude.{Some, refl, nat_eq};
ghost use Rattle.std.specs.Ordering.{nat_cmp};
ghost use Rattle.std.specs.Cmp.{partial_equiv_from_equiv};
ghost use Rattle.std.specs.Cmp.Lexicographic.{pointwise, slice_cmp, nat_list_eq_equiv, nat_list_cmp_total, texts_ties, texts_po};

use crate::bytes::Bytes;
use crate::copied::Copied;
use crate::memory::Memory;
use std::alloc::Global;
use std::cmp::Ordering;
use std::marker::Model;

/// The text of a crate directory's, an entry's or a file's name: 1 to 128 bytes of ASCII letters, digits,
/// `_`, `-` and `.`, and neither `.` nor `..`. So it is one component of a path (docs/PROTOCOL.md,
/// "Labels"). Labels are ordered by their bytes.
#[derive(Clone, Debug, Drop)]
pub struct Label {
    text: Bytes,
}

impl Model for Label {
    ghost use Rattle.std.specs.Prelude.{List, ℕ};
    ghost use Rattle.inc_base.specs.Texts.{IsLabel};

    ghost Value = { List ℕ };

    ghost view = { λ l. l.text };

    ghost invariant = { λ l. IsLabel l.text };
}

fn is_label_byte(byte: u8) -> bool
    ensures { result ≡ is_label_byte byte }
{
    is_name_byte(byte) || byte == b'-' || byte == b'.'
}

fn is_name_byte(byte: u8) -> bool
    ensures { result ≡ is_name_byte byte }
{
    byte.is_ascii_alphanumeric() || byte == b'_'
}

fn is_label(text: &[u8]) -> bool
    ensures { IsTrue result ↔ IsLabel text.now }
{
    !text.is_empty()
        && text.len() <= 128
        && text.iter().all(|byte| is_label_byte(*byte))
        && text != b".".as_slice()
        && text != b"..".as_slice()
}

fn is_name(text: &[u8]) -> bool
    ensures { IsTrue result ↔ IsName text.now }
{
    !text.is_empty() && text.len() <= 64 && text.iter().all(|byte| is_name_byte(*byte))
}

impl Label {
    /// The label with this text: `None` exactly where the text isn't that of a label.
    pub fn of(alloc: Global, text: &[u8]) -> Result<Option<Label>, Memory>
        ensures some { IfOk result (λ found. IfSome found (λ l. (l ≡ text.now) × IsLabel l)) }
        ensures none { IfOk result (λ found. IfNone found (¬ IsLabel text.now)) }
    {
        if !is_label(text) {
            return Ok(None);
        }
        Ok(Some(Label {
            text: Bytes::of(alloc, text)?,
        }))
    }

    /// Its text.
    pub fn bytes(&self) -> &[u8]
        ensures value { result.now ≡ self.now }
        ensures label { IsLabel self.now }
    {
        self.text.as_slice()
    }
}

impl Copied for Label {
    ghost same = { Prim.search rules };
}

impl PartialEq for Label {
    ghost eq = { pointwise nat_eq };

    ghost laws = { partial_equiv_from_equiv nat_list_eq_equiv };

    fn eq(&self, other: &Label) -> bool {
        self.bytes() == other.bytes()
    }
}

impl Eq for Label {
    ghost laws = { nat_list_eq_equiv };
}

impl PartialOrd for Label {
    ghost partial_cmp = { λ x y. Some (slice_cmp nat_cmp x y) };

    ghost laws = { texts_po };

    fn partial_cmp(&self, other: &Label) -> Option<Ordering> {
        Some(self.cmp(other))
    }
}

/// By bytes.
impl Ord for Label {
    ghost cmp = { slice_cmp nat_cmp };

    ghost total = { nat_list_cmp_total };

    ghost matches_partial_cmp = { λ x y. refl };

    ghost matches_eq = { texts_ties };

    fn cmp(&self, other: &Label) -> Ordering {
        self.bytes().cmp(other.bytes())
    }
}

/// The name of a crate or a module: 1 to 64 bytes of ASCII letters, digits and `_`. It is a label too.
/// Names are ordered by their bytes.
#[derive(Clone, Debug, Drop)]
pub struct Name {
    text: Bytes,
}

impl Model for Name {
    ghost use Rattle.std.specs.Prelude.{List, ℕ};
    ghost use Rattle.inc_base.specs.Texts.{IsName};

    ghost Value = { List ℕ };

    ghost view = { λ l. l.text };

    ghost invariant = { λ l. IsName l.text };
}

impl Name {
    /// The name with this text: `None` exactly where the text isn't that of a name.
    pub fn of(alloc: Global, text: &[u8]) -> Result<Option<Name>, Memory>
        ensures some { IfOk result (λ found. IfSome found (λ n. (n ≡ text.now) × IsName n)) }
        ensures none { IfOk result (λ found. IfNone found (¬ IsName text.now)) }
    {
        if !is_name(text) {
            return Ok(None);
        }
        Ok(Some(Name {
            text: Bytes::of(alloc, text)?,
        }))
    }

    /// Its text.
    pub fn bytes(&self) -> &[u8]
        ensures value { result.now ≡ self.now }
        ensures name { IsName self.now }
    {
        self.text.as_slice()
    }
}

impl Copied for Name {
    ghost same = { Prim.search rules };
}

impl PartialEq for Name {
    ghost eq = { pointwise nat_eq };

    ghost laws = { partial_equiv_from_equiv nat_list_eq_equiv };

    fn eq(&self, other: &Name) -> bool {
        self.bytes() == other.bytes()
    }
}

impl Eq for Name {
    ghost laws = { nat_list_eq_equiv };
}

impl PartialOrd for Name {
    ghost partial_cmp = { λ x y. Some (slice_cmp nat_cmp x y) };

    ghost laws = { texts_po };

    fn partial_cmp(&self, other: &Name) -> Option<Ordering> {
        Some(self.cmp(other))
    }
}

/// By bytes.
impl Ord for Name {
    ghost cmp = { slice_cmp nat_cmp };

    ghost total = { nat_list_cmp_total };

    ghost matches_partial_cmp = { λ x y. refl };

    ghost matches_eq = { texts_ties };

    fn cmp(&self, other: &Name) -> Ordering {
        self.bytes().cmp(other.bytes())
    }
}
