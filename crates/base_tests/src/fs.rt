mod ask;
mod plain;

use ask::{Ask, op_of, shown};
use inc_base::Copied;
use inc_fs::{Chance, Fs, is_kind_of};
use plain::Plain;
use rand_core::Rng;
use rand_pcg::Pcg32;
use std::alloc::Global;
use std::process::Abort;
use std::test::Fail;

const SURE: Chance = Chance {
    moment: 0,
    random: 0,
    fails: None,
};

/// The directory and the plain program, side by side.
#[derive(Drop)]
struct Both {
    alloc: Global,
    fs: Fs,
    plain: Plain,
}

impl Both {
    fn new(alloc: Global) -> Both {
        Both {
            alloc,
            fs: Fs::new(alloc),
            plain: Plain::new(alloc),
        }
    }

    /// What both answer, which is the same. An ending answers `Ended`.
    fn step(
        &mut self,
        rt: &impl Abort,
        who: u32,
        krate: u8,
        ask: Ask,
        chance: Chance,
    ) -> Result<String, Fail> {
        let Some(op) = op_of(self.alloc, krate, ask)? else {
            self.fs.end(who);
            self.plain.end(who);
            return Ok(format!(in self.alloc; "Ended")?);
        };
        let reply = self.fs.apply(who, &op.copy()?, chance)?;
        assert!(rt; is_kind_of(&op, &reply), "{ask:?}");
        let reply = shown(self.alloc, &reply)?;
        let plain = self.plain.apply(self.alloc, who, krate, ask, chance)?;
        let plain = shown(self.alloc, &plain)?;
        assert_eq!(rt; reply.as_str(), plain.as_str(), "{ask:?}");
        Ok(reply)
    }
}

const A: u32 = 0;

const B: u32 = 1;

type Row = (u32, Ask, &'static str);

fn check_rows(rt: &impl Abort, alloc: Global, rows: &[Row]) -> Result<(), Fail> {
    let mut both = Both::new(alloc);
    for (who, ask, reply) in rows {
        assert_eq!(rt;
            both.step(rt, *who, b'k', *ask, SURE)?.as_str(),
            *reply,
            "{ask:?}"
        );
    }
    Ok(())
}

#[test]
fn an_unlinked_lock_file_lives_on_with_its_handles(rt: HostRuntime) -> Result<(), Fail> {
    check_rows(
        &rt,
        rt.alloc(),
        &[
            (B, Ask::MakeLock(b'n'), "Handle 0"),
            (B, Ask::TryLock(0, true), "Got"),
            (A, Ask::OpenLock(b'n'), "Handle 1"),
            (A, Ask::TryLock(0, false), "Missing"),
            (A, Ask::TryLock(1, false), "Held"),
            (A, Ask::Close(0), "Missing"),
            (B, Ask::UnlinkLock(b'n'), "Done"),
            (A, Ask::TryLock(1, false), "Held"),
            (B, Ask::Close(0), "Done"),
            (A, Ask::TryLock(1, false), "Got"),
            (B, Ask::OpenLock(b'n'), "Missing"),
            (B, Ask::UnlinkLock(b'n'), "Missing"),
            (B, Ask::MakeLock(b'n'), "Handle 2"),
            (B, Ask::TryLock(2, true), "Got"),
            (B, Ask::MakeLock(b'n'), "Exists"),
        ],
    )
}

#[test]
fn an_upgrade_needs_to_be_alone(rt: HostRuntime) -> Result<(), Fail> {
    check_rows(
        &rt,
        rt.alloc(),
        &[
            (A, Ask::MakeLock(b'n'), "Handle 0"),
            (A, Ask::TryLock(0, false), "Got"),
            (A, Ask::TryLock(0, true), "Got"),
            (A, Ask::TryLock(0, false), "Got"),
            (B, Ask::OpenLock(b'n'), "Handle 1"),
            (B, Ask::TryLock(1, false), "Got"),
            (A, Ask::TryLock(0, true), "Held"),
            (B, Ask::TryLock(1, true), "Held"),
            (B, Ask::Close(1), "Done"),
            (B, Ask::TryLock(1, false), "Missing"),
            (A, Ask::TryLock(0, true), "Got"),
            (B, Ask::OpenLock(b'n'), "Handle 2"),
            (B, Ask::TryLock(2, false), "Held"),
            (A, Ask::End, "Ended"),
            (B, Ask::TryLock(2, true), "Got"),
            (A, Ask::Close(0), "Missing"),
        ],
    )
}

#[test]
fn an_append_is_seen_under_all_names(rt: HostRuntime) -> Result<(), Fail> {
    check_rows(
        &rt,
        rt.alloc(),
        &[
            (A, Ask::Look, "Names "),
            (A, Ask::Create(b'w', b'f'), "Missing"),
            (A, Ask::MakeDir(b'w'), "Done"),
            (A, Ask::MakeDir(b'p'), "Done"),
            (A, Ask::MakeDir(b'w'), "Exists"),
            (A, Ask::Create(b'w', b'g'), "Done"),
            (A, Ask::Create(b'w', b'f'), "Done"),
            (A, Ask::Create(b'w', b'f'), "Exists"),
            (A, Ask::ListDir(b'w'), "Names fg"),
            (A, Ask::ListDir(b'q'), "Missing"),
            (A, Ask::Link(b'w', b'q', b'f'), "Missing"),
            (A, Ask::Link(b'w', b'p', b'h'), "Missing"),
            (A, Ask::Link(b'w', b'p', b'f'), "Done"),
            (A, Ask::Link(b'w', b'p', b'f'), "Exists"),
            (A, Ask::Append(b'p', b'f', b"one "), "Done"),
            (A, Ask::Append(b'w', b'f', b"two"), "Done"),
            (A, Ask::Append(b'p', b'g', b"two"), "Missing"),
            (A, Ask::Read(b'w', b'f'), "Bytes one two"),
            (A, Ask::Read(b'p', b'f'), "Bytes one two"),
            (A, Ask::Unlink(b'w', b'f'), "Done"),
            (A, Ask::Unlink(b'w', b'f'), "Missing"),
            (A, Ask::Read(b'w', b'f'), "Missing"),
            (A, Ask::Read(b'p', b'f'), "Bytes one two"),
            (A, Ask::RemoveDir(b'p'), "NotEmpty"),
            (A, Ask::Rename(b'p', b'w'), "Exists"),
            (A, Ask::Rename(b'p', b'a'), "Done"),
            (A, Ask::Rename(b'p', b'a'), "Missing"),
            (A, Ask::Read(b'a', b'f'), "Bytes one two"),
            (A, Ask::MakeLock(b'l'), "Handle 0"),
            (A, Ask::Look, "Names alw"),
            (A, Ask::UnlinkLock(b'a'), "Missing"),
            (A, Ask::RemoveDir(b'l'), "Missing"),
            (A, Ask::Unlink(b'a', b'f'), "Done"),
            (A, Ask::RemoveDir(b'a'), "Done"),
            (A, Ask::RemoveDir(b'a'), "Missing"),
        ],
    )
}

#[test]
fn draws_wrap_and_never_go_back(rt: HostRuntime) -> Result<(), Fail> {
    let mut both = Both::new(rt.alloc());
    for (moment, random, reply) in [
        (35, u32::MAX, "Drawn 35 4294967295"),
        (35, u32::MAX, "Drawn 35 0"),
        (7, u32::MAX, "Drawn 35 1"),
        (36, 0, "Drawn 36 0"),
        (0, 0, "Drawn 36 1"),
    ] {
        let chance = Chance {
            moment,
            random,
            fails: None,
        };
        assert_eq!(rt; both.step(&rt, A, b'k', Ask::Draw, chance)?.as_str(), reply);
    }
    Ok(())
}

#[test]
fn a_fault_leaves_a_front_of_an_append(rt: HostRuntime) -> Result<(), Fail> {
    let mut both = Both::new(rt.alloc());
    let failing = |cut: u32| Chance {
        moment: 0,
        random: 0,
        fails: Some(cut),
    };
    for (ask, chance, reply) in [
        (Ask::MakeDir(b'w'), failing(9), "Fault"),
        (Ask::MakeDir(b'w'), SURE, "Done"),
        (Ask::Create(b'w', b'f'), SURE, "Done"),
        (Ask::Append(b'w', b'f', b"abc"), failing(2), "Fault"),
        (Ask::Append(b'w', b'f', b"de"), failing(9), "Fault"),
        (Ask::Append(b'w', b'f', b"fg"), failing(0), "Fault"),
        (Ask::Append(b'w', b'g', b"fg"), failing(1), "Fault"),
        (Ask::Read(b'w', b'f'), SURE, "Bytes abde"),
        (Ask::ListDir(b'w'), SURE, "Names f"),
    ] {
        assert_eq!(rt;
            both.step(&rt, A, b'k', ask, chance)?.as_str(),
            reply,
            "{ask:?}"
        );
    }
    Ok(())
}

fn entry(random: &mut Pcg32) -> u8 {
    match random.next_u32() % 4 {
        0 => b'a',
        1 => b'b',
        2 => b'c',
        _ => b'd',
    }
}

fn random_ask(random: &mut Pcg32) -> Ask {
    let from = entry(random);
    let to = entry(random);
    let file = if random.next_u32() % 2 == 0 {
        b'f'
    } else {
        b'g'
    };
    let handle = random.next_u32() % 8;
    match random.next_u32() % 20 {
        0 => Ask::Draw,
        1 => Ask::MakeLock(from),
        2 | 3 => Ask::OpenLock(from),
        4 => Ask::TryLock(handle, true),
        5 | 6 => Ask::TryLock(handle, false),
        7 => Ask::Look,
        8 => Ask::ListDir(from),
        9 => Ask::MakeDir(from),
        10 => Ask::Link(from, to, file),
        11 => Ask::Read(from, file),
        12 => Ask::Create(from, file),
        13 => Ask::Append(from, file, b"abc"),
        14 => Ask::Unlink(from, file),
        15 => Ask::UnlinkLock(from),
        16 => Ask::RemoveDir(from),
        17 => Ask::Rename(from, to),
        18 => Ask::Close(handle),
        _ => Ask::End,
    }
}

fn random_chance(random: &mut Pcg32) -> Chance {
    let moment = u64::from(random.next_u32() % 3);
    let fails = random.next_u32() % 16;
    Chance {
        moment,
        random: u32::MAX - random.next_u32() % 3,
        fails: if fails < 4 { Some(fails) } else { None },
    }
}

#[test]
fn random_steps_are_answered_as_by_the_plain_program(rt: HostRuntime) -> Result<(), Fail> {
    for seed in 0..120 {
        let mut random = Pcg32::new(seed, 54);
        let mut both = Both::new(rt.alloc());
        for _ in 0..120 {
            let who = random.next_u32() % 3;
            let krate = if random.next_u32() % 4 == 0 {
                b'm'
            } else {
                b'k'
            };
            let ask = random_ask(&mut random);
            let chance = random_chance(&mut random);
            both.step(&rt, who, krate, ask, chance)?;
        }
    }
    Ok(())
}
