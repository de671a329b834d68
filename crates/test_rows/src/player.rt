//! What stands while the rows of a file are played.

use std::alloc::Global;
use std::sync::Wait;
use std::time::Clock;
use test_network::{Desk, Logs, Sessions};
use test_program::{Document, Job, Played, Texts, faults, judgements, processes, surveys, words};
use test_rules::{Audit, Ballots, Casts, Cores, Questions, Stream, chains, numbers};
use test_storage::{Disks, File, Life, Migration};

/// The player of a file.
#[derive(Drop)]
pub enum Player {
    Audits(Audit),
    Ballots(Ballots),
    Broadcasts(Casts),
    Chains(Global),
    Clusters(Played),
    Cores(Cores),
    Desks(Desk),
    Disks(Disks),
    Documents(Document),
    Faults(Global),
    Frames(Stream),
    Journals(File),
    Jobs(Job),
    Lives(Life),
    Logs(Logs),
    Migrations(Migration),
    Numbers(Global),
    Processes(Global),
    Questions(Questions),
    Sessions(Sessions),
    Surveys(Global),
    Texts(Texts),
    Trials(Global),
    Words(Global),
    /// There is no such player.
    Nobody,
}

impl Player {
    /// The player of that name.
    pub fn new(alloc: Global, name: &str) -> Player {
        match name {
            "audits" => Player::Audits(Audit::new(alloc)),
            "votes" => Player::Ballots(Ballots::new(alloc)),
            "broadcasts" => Player::Broadcasts(Casts::new(alloc)),
            "chains" => Player::Chains(alloc),
            "clusters" => Player::Clusters(Played::new(alloc)),
            "cores" => Player::Cores(Cores::new(alloc)),
            "desks" => Player::Desks(Desk::new(alloc)),
            "disks" => Player::Disks(Disks::new(alloc)),
            "settings" => Player::Documents(Document::new(alloc)),
            "faults" => Player::Faults(alloc),
            "frames" => Player::Frames(Stream::new(alloc)),
            "journals" => Player::Journals(File::new(alloc)),
            "jobs" => Player::Jobs(Job::new(alloc)),
            "logs" => Player::Logs(Logs::new(alloc)),
            "lives" => Player::Lives(Life::new(alloc)),
            "migrations" => Player::Migrations(Migration::new(alloc)),
            "numbers" => Player::Numbers(alloc),
            "processes" => Player::Processes(alloc),
            "questions" => Player::Questions(Questions::new(alloc)),
            "sessions" => Player::Sessions(Sessions::new(alloc)),
            "surveys" => Player::Surveys(alloc),
            "scripts" => Player::Texts(Texts::new(alloc)),
            "trials" => Player::Trials(alloc),
            "words" => Player::Words(alloc),
            _ => Player::Nobody,
        }
    }

    /// Does what a row says, and gives what is answered: none where it says nothing that can be
    /// done.
    pub fn told<R: Wait + Clock>(&mut self, rt: &R, action: &str) -> Option<String> {
        match self {
            Player::Audits(audit) => audit.told(action),
            Player::Ballots(ballots) => ballots.told(action),
            Player::Broadcasts(casts) => casts.told(action),
            Player::Chains(alloc) => chains::told(*alloc, action),
            Player::Clusters(played) => played.told(action),
            Player::Cores(cores) => cores.told(action),
            Player::Desks(desk) => desk.told(action),
            Player::Disks(disks) => disks.told(action),
            Player::Documents(document) => document.told(action),
            Player::Faults(alloc) => faults::told(*alloc, action),
            Player::Frames(stream) => stream.told(action),
            Player::Journals(file) => file.told(action),
            Player::Jobs(job) => job.told(action),
            Player::Logs(logs) => logs.told(action),
            Player::Lives(life) => life.told(action),
            Player::Migrations(migration) => migration.told(action),
            Player::Numbers(alloc) => numbers::told(*alloc, action),
            Player::Processes(alloc) => processes::told(*alloc, action),
            Player::Questions(questions) => questions.told(action),
            Player::Sessions(sessions) => sessions.told(rt, action),
            Player::Surveys(alloc) => surveys::told(*alloc, action),
            Player::Texts(texts) => texts.told(action),
            Player::Trials(alloc) => judgements::told(*alloc, action),
            Player::Words(alloc) => words::told(*alloc, action),
            Player::Nobody => None,
        }
    }
}
