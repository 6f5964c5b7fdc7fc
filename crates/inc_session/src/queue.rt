ghost use Rattle.std.specs.Prelude.{◌≡◌, ◌∷◌, [], ◌++◌, length, OnOk};
ghost use Rattle.std.specs.Option.{option_copied};
ghost use Rattle.inc_session.specs.Saving.{first_of, taken_of};

use inc_base::Memory;
use inc_fs::Op;
use std::alloc::Global;
use std::collections::VecDeque;
use std::marker::Model;

/// Steps that are still to be made, in their order.
#[derive(Drop)]
pub struct Queue {
    ops: VecDeque<Op>,
}

impl Model for Queue {
    ghost use Rattle.std.specs.Prelude.{List};
    ghost use Rattle.inc_fs.specs.declared.op.Op.{Op};

    ghost Value = { List Op };

    ghost view = { λ q. q.ops.items };

    ghost invariant = { λ q. Unit {0} };
}

impl Queue {
    pub(crate) fn new(alloc: Global) -> Queue
        ensures { result ≡ [] }
    {
        Queue {
            ops: VecDeque::new(alloc),
        }
    }

    pub(crate) fn len(&self) -> usize
        ensures { result ≡ length self.now }
    {
        self.ops.len()
    }

    pub(crate) fn push(&mut self, op: Op) -> Result<(), Memory>
        ensures { OnOk result (self.new ≡ self.old ++ op ∷ []) }
    {
        self.ops.push_back(op)?;
        Ok(())
    }

    pub(crate) fn first(&self) -> Option<&Op>
        ensures { option_copied result ≡ first_of self.now }
    {
        self.ops.front()
    }

    /// The first step, and those after it.
    pub(crate) fn take(self) -> Option<(Op, Queue)>
        ensures { result ≡ taken_of self }
    {
        let Queue { ops } = self;
        let mut ops = ops;
        match ops.pop_front() {
            Some(op) => Some((op, Queue { ops })),
            None => {
                drop(ops);
                None
            }
        }
    }
}
