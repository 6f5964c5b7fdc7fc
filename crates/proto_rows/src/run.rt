//! The ground that the rows run on.

use crate::content::{Fixed, job};
use crate::reply::{Came, text_of};
use crate::row::{chance, op_of, word};
use inc_base::{Memory, Name};
use inc_fs::{Chance, Op};
use inc_laws::{loaded_is_whole, names_once, newest_stands};
use inc_proto::Ground;
use std::alloc::Global;
use std::mem;

/// A ground, and the crate directory in which steps are made.
#[derive(Drop)]
pub struct Run {
    alloc: Global,
    ground: Ground<Fixed>,
    krate: String,
}

impl Run {
    pub fn new(alloc: Global) -> Run {
        Run {
            alloc,
            ground: Ground::new(alloc, Fixed { alloc }),
            krate: String::new(alloc),
        }
    }

    /// What comes of a line, as it is printed.
    pub fn told(&mut self, line: &str) -> Result<Option<String>, Memory> {
        match self.line(line) {
            Ok(None) => Ok(None),
            Ok(Some(came)) => {
                let text = text_of(self.alloc, &came);
                drop(came);
                Ok(Some(text?))
            }
            Err(refused) => Err(refused),
        }
    }

    /// Does what a line says: `case` begins anew, `job` begins a session of a crate, `in` names the crate directory,
    /// `names`, `newest` and `loaded` ask for the count of drawn names, for the crate's newest entry and for what a
    /// session that runs has loaded, and any other line is a step. What comes of a step or a question is answered, and
    /// None of other lines.
    fn line(&mut self, line: &str) -> Result<Option<Came>, Memory> {
        let mut words = Vec::new(self.alloc);
        for word in line.split_whitespace() {
            words.push(word)?;
        }
        match word(&words, 0) {
            "case" => self.case(),
            "job" => self.job(word(&words, 1), word(&words, 2)),
            "in" => self.enter(word(&words, 1)),
            "names" => Ok(Some(Came::Counted(names_once(&self.ground)))),
            "newest" => newest(self.alloc, &self.ground, self.krate.as_str()),
            "loaded" => loaded(&self.ground, word(&words, 1)),
            _ => self.step(&words),
        }
    }

    fn case(&mut self) -> Result<Option<Came>, Memory> {
        let alloc = self.alloc;
        let ground = Ground::new(alloc, Fixed { alloc });
        drop(mem::replace(&mut self.ground, ground));
        Ok(None)
    }

    fn job(&mut self, krate: &str, text: &str) -> Result<Option<Came>, Memory> {
        match job(self.alloc, krate.as_bytes(), text)? {
            Some(job) => {
                self.ground.begin(job)?;
                Ok(None)
            }
            None => Ok(None),
        }
    }

    fn enter(&mut self, krate: &str) -> Result<Option<Came>, Memory> {
        let krate = String::from_str(self.alloc, krate)?;
        drop(mem::replace(&mut self.krate, krate));
        Ok(None)
    }

    fn step(&mut self, words: &[&str]) -> Result<Option<Came>, Memory> {
        let Some((who, words)) = words.split_first() else {
            return Ok(None);
        };
        let Ok(who) = who.parse::<u32>() else {
            return Ok(None);
        };
        if word(words, 0) == "leave" {
            return leave(&mut self.ground, who);
        }
        match op_of(self.alloc, self.krate.as_str(), words)? {
            Some(op) => act(&mut self.ground, who, op, chance(words)),
            None => Ok(None),
        }
    }
}

/// The newest entry of a crate.
fn newest(alloc: Global, ground: &Ground<Fixed>, krate: &str) -> Result<Option<Came>, Memory> {
    match Name::of(alloc, krate.as_bytes())? {
        Some(krate) => {
            let found = newest_stands(ground, &krate);
            drop(krate);
            Ok(Some(Came::Found(found?)))
        }
        None => Ok(None),
    }
}

/// What a session has loaded, where it runs.
fn loaded(ground: &Ground<Fixed>, who: &str) -> Result<Option<Came>, Memory> {
    let Ok(who) = who.parse::<u32>() else {
        return Ok(None);
    };
    ground.legal();
    if !ground.runs(who) {
        return Ok(Some(Came::NotPermitted));
    }
    Ok(Some(Came::Found(loaded_is_whole(ground, who)?)))
}

/// Makes a step where it is permitted.
fn act(
    ground: &mut Ground<Fixed>,
    who: u32,
    op: Op,
    chance: Chance,
) -> Result<Option<Came>, Memory> {
    match ground.permits(who, &op) {
        Ok(true) => {
            let reply = ground.act(who, op, chance)?;
            Ok(Some(Came::Replied(reply)))
        }
        Ok(false) => {
            drop(op);
            Ok(Some(Came::NotPermitted))
        }
        Err(refused) => {
            drop(op);
            Err(refused)
        }
    }
}

/// The session leaves between two steps, where it runs: who runs may always close.
#[tactic(auto, using(crate::proofs::Leaving::may_leave))]
fn leave(ground: &mut Ground<Fixed>, who: u32) -> Result<Option<Came>, Memory> {
    let closing = Op::Close { handle: 0 };
    let may = ground.permits(who, &closing);
    drop(closing);
    match may {
        Ok(true) => {
            ground.leave(who, None, 0)?;
            Ok(Some(Came::Left))
        }
        Ok(false) => Ok(Some(Came::NotPermitted)),
        Err(refused) => Err(refused),
    }
}
