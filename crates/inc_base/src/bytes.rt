//! Bytes: short texts stand in place, and longer ones are shared.

ghost use Rattle.std.specs.Prelude.{◌≡◌, ◌+◌, ◌<◌, ◌≤◌, ◌^◌, [], ◌∷◌, ◌++◌, length, IfOk, OnOk, OnErr, IsTrue, ◌↔◌, Some, refl, nat_eq};
ghost use Rattle.std.specs.Arc.{arc_value};
ghost use Rattle.std.specs.Ordering.{nat_cmp};
ghost use Rattle.std.specs.Cmp.{partial_equiv_from_equiv};
ghost use Rattle.std.specs.Cmp.Lexicographic.{pointwise, slice_cmp, nat_list_eq_equiv, nat_list_cmp_total, texts_ties, texts_po};

use crate::copied::Copied;
use crate::list::{List, MOST};
use crate::memory::Memory;
use crate::short::{ROOM, Short};
use std::alloc::{AllocError, Global};
use std::cmp::Ordering;
use std::fmt::{Debug, Formatter};
use std::marker::Model;
use std::sync::Arc;
use std::{fmt, mem};

/// A list of bytes, of which there are at most `MOST`: room for more counts as memory that isn't there.
///
/// A copy takes no memory: a text of up to 14 bytes stands in the value itself, and a longer one stands in a
/// block that its copies share. What is added to such a text goes into its block where no copy shares it, and
/// else into a block of its own.
#[derive(Drop)]
pub struct Bytes {
    alloc: Global,
    form: Form,
}

/// Where the bytes stand.
#[derive(Drop)]
pub(crate) enum Form {
    Placed(Short),
    Shared(Arc<List<u8>>),
}

impl Model for Bytes {
    ghost use Rattle.std.specs.Prelude.{List, ℕ};

    ghost Value = { List ℕ };

    ghost use Rattle.inc_base.specs.Kept.{kept};

    ghost view = { λ b. kept b.form };
}

impl Form {
    ghost use Rattle.inc_base.specs.Kept.{kept};

    fn as_slice(&self) -> &[u8]
        ensures value { result.now ≡ kept self.now }
        ensures few { length (kept self.now) < 2 ^ 32 }
    {
        match self {
            Form::Placed(short) => short.as_slice(),
            Form::Shared(block) => block.as_slice(),
        }
    }

    /// The same bytes again. `Memory` where a block has as many copies as can be counted.
    fn again(&self) -> Result<Form, AllocError>
        ensures { IfOk result (λ it. kept it ≡ kept self.now) }
    {
        match self {
            Form::Placed(short) => Ok(Form::Placed(short.again())),
            Form::Shared(block) => Ok(Form::Shared(Arc::try_clone(block)?)),
        }
    }

    /// Adds two pieces at the end. `Memory` leaves the bytes as they were.
    fn add(&mut self, alloc: Global, first: &[u8], second: &[u8]) -> Result<(), Memory>
        requires { length (kept self.old) + length first.now + length second.now < 2 ^ 32 }
        ensures ok { OnOk result (kept self.new ≡ kept self.old ++ first.now ++ second.now) }
        ensures err { OnErr result (kept self.new ≡ kept self.old) }
    {
        match self {
            Form::Placed(short) if first.len() + second.len() <= short.left() => {
                short.add(first);
                short.add(second);
                Ok(())
            }
            Form::Placed(short) => {
                let block = block_of(alloc, short.as_slice(), first, second)?;
                drop(mem::replace(self, Form::Shared(block)));
                Ok(())
            }
            Form::Shared(block) => add_to(alloc, block, first, second),
        }
    }
}

/// Adds two pieces to the bytes of a block, in the block where there is no copy of it.
fn add_to(
    alloc: Global,
    block: &mut Arc<List<u8>>,
    first: &[u8],
    second: &[u8],
) -> Result<(), Memory>
    requires { length (arc_value block.old) + length first.now + length second.now < 2 ^ 32 }
    ensures ok { OnOk result (arc_value block.new ≡ arc_value block.old ++ first.now ++ second.now) }
    ensures err { OnErr result (arc_value block.new ≡ arc_value block.old) }
{
    match Arc::get_mut(block) {
        Some(list) => list.append_two(first, second),
        None => {
            let more = block_of(alloc, block.as_slice(), first, second)?;
            drop(mem::replace(block, more));
            Ok(())
        }
    }
}

/// A block of three pieces.
fn block_of(
    alloc: Global,
    front: &[u8],
    first: &[u8],
    second: &[u8],
) -> Result<Arc<List<u8>>, Memory>
    requires { length front.now + length first.now + length second.now < 2 ^ 32 }
    ensures { IfOk result (λ block. arc_value block ≡ front.now ++ first.now ++ second.now) }
{
    let mut bytes = Vec::with_capacity(alloc, front.len() + first.len() + second.len())?;
    bytes.extend_from_slice(front)?;
    bytes.extend_from_slice(first)?;
    bytes.extend_from_slice(second)?;
    Ok(Arc::new(alloc, List::from_vec(bytes))?)
}

fn placed(alloc: Global, bytes: &[u8]) -> Bytes
    requires { length bytes.now ≤ 14 }
    ensures { result ≡ bytes.now }
{
    let mut short = Short::new();
    short.add(bytes);
    Bytes {
        alloc,
        form: Form::Placed(short),
    }
}

fn shared(alloc: Global, bytes: Vec<u8>) -> Result<Bytes, Memory>
    requires { length bytes.items < 2 ^ 32 }
    ensures { IfOk result (λ it. it ≡ bytes.items) }
{
    Ok(Bytes {
        alloc,
        form: Form::Shared(Arc::new(alloc, List::from_vec(bytes))?),
    })
}

impl Bytes {
    /// No bytes, which take no memory.
    pub fn new(alloc: Global) -> Bytes
        ensures { result ≡ [] }
    {
        Bytes {
            alloc,
            form: Form::Placed(Short::new()),
        }
    }

    /// These bytes. More than `MOST` of them answer `Memory`.
    pub fn of(alloc: Global, bytes: &[u8]) -> Result<Bytes, Memory>
        ensures { IfOk result (λ it. it ≡ bytes.now) }
    {
        if bytes.len() > MOST {
            return Err(Memory);
        }
        if bytes.len() <= ROOM {
            return Ok(placed(alloc, bytes));
        }
        shared(alloc, Vec::from_slice(alloc, bytes)?)
    }

    /// A vector's bytes, which are at most `MOST`, without a copy of them where they are more than 14. `Memory`
    /// where there is none for their block.
    pub fn from_vec(bytes: Vec<u8>) -> Result<Bytes, Memory>
        requires { length bytes.items < 2 ^ 32 }
        ensures { IfOk result (λ it. it ≡ bytes.items) }
    {
        let alloc = *bytes.allocator();
        if bytes.len() <= ROOM {
            return Ok(placed(alloc, bytes.as_slice()));
        }
        shared(alloc, bytes)
    }

    /// The bytes in order.
    pub fn as_slice(&self) -> &[u8]
        ensures value { result.now ≡ self.now }
        ensures few { length self.now < 2 ^ 32 }
    {
        self.form.as_slice()
    }

    /// How many bytes there are.
    pub fn len(&self) -> usize
        ensures value { result ≡ length self.now }
        ensures few { result < 2 ^ 32 }
    {
        self.as_slice().len()
    }

    /// Whether there is no byte.
    pub fn is_empty(&self) -> bool
        ensures { IsTrue result ↔ (self.now ≡ []) }
    {
        self.as_slice().is_empty()
    }

    /// The allocator that they were made with, for what is made beside them.
    pub fn allocator(&self) -> Global {
        self.alloc
    }

    /// Adds a byte at the end. `Memory` leaves the bytes as they were, and also comes where there are `MOST`.
    pub fn push(&mut self, byte: u8) -> Result<(), Memory>
        ensures ok { OnOk result (self.new ≡ self.old ++ byte ∷ []) }
        ensures err { OnErr result (self.new ≡ self.old) }
    {
        self.append(&[byte])
    }

    /// Adds a piece at the end. `Memory` leaves the bytes as they were, and also comes where there is no room
    /// left for the piece.
    pub fn append(&mut self, piece: &[u8]) -> Result<(), Memory>
        ensures ok { OnOk result (self.new ≡ self.old ++ piece.now) }
        ensures err { OnErr result (self.new ≡ self.old) }
    {
        self.append_two(piece, &[])
    }

    /// Adds two pieces at the end, or none: `Memory` leaves the bytes as they were, and also comes where there is
    /// no room left for both.
    pub fn append_two(&mut self, first: &[u8], second: &[u8]) -> Result<(), Memory>
        ensures ok { OnOk result (self.new ≡ self.old ++ first.now ++ second.now) }
        ensures err { OnErr result (self.new ≡ self.old) }
    {
        let left = MOST - self.len();
        if first.len() > left || second.len() > left - first.len() {
            return Err(Memory);
        }
        self.form.add(self.alloc, first, second)
    }
}

impl Clone for Bytes {
    ghost is_clone = { λ x y. y ≡ x };

    fn clone(&self) -> Result<Bytes, AllocError> {
        Ok(Bytes {
            alloc: self.alloc,
            form: self.form.again()?,
        })
    }
}

impl Copied for Bytes {
    ghost same = { λ x y e. e };
}

impl Debug for Bytes {
    fn fmt<W: fmt::Write>(&self, f: &mut Formatter<W>) -> fmt::Result {
        Debug::fmt(&self.as_slice(), f)
    }
}

impl PartialEq for Bytes {
    ghost eq = { pointwise nat_eq };

    ghost laws = { partial_equiv_from_equiv nat_list_eq_equiv };

    fn eq(&self, other: &Bytes) -> bool {
        self.as_slice() == other.as_slice()
    }
}

impl Eq for Bytes {
    ghost laws = { nat_list_eq_equiv };
}

impl PartialOrd for Bytes {
    ghost partial_cmp = { λ x y. Some (slice_cmp nat_cmp x y) };

    ghost laws = { texts_po };

    fn partial_cmp(&self, other: &Bytes) -> Option<Ordering> {
        Some(self.cmp(other))
    }
}

/// The first bytes that differ decide, and where there are none the shorter text comes first.
impl Ord for Bytes {
    ghost cmp = { slice_cmp nat_cmp };

    ghost total = { nat_list_cmp_total };

    ghost matches_partial_cmp = { λ x y. refl };

    ghost matches_eq = { texts_ties };

    fn cmp(&self, other: &Bytes) -> Ordering {
        self.as_slice().cmp(other.as_slice())
    }
}
