ghost use Rattle.std.specs.Prelude.{◌≡◌, ◌≢◌, IfOk, OnErr};
ghost use Rattle.inc_fs.specs.Step.{Draws, IsFirstNew};

use super::Fs;
use crate::op::{Chance, Reply};
use inc_base::Memory;

impl Fs {
    pub(super) fn draw(&mut self, chance: Chance) -> Result<Reply, Memory>
        ensures draws { IfOk result (λ reply. Draws self.old reply self.new) }
        ensures first { IfOk result (λ reply. IsFirstNew self.old.drawn chance reply) }
        ensures answers { IfOk result (λ reply. reply ≢ Reply.Fault) }
        ensures err { OnErr result (self.new ≡ self.old) }
    {
        let moment = chance.moment.max(self.drawn.last_moment());
        let random = self.drawn.first_new(moment, chance.random)?;
        self.drawn.push(moment, random)?;
        Ok(Reply::Drawn(moment, random))
    }
}
