//! How the files of a run were judged.
ghost use Rattle.std.specs.Prelude.{◌≡◌, ◌+◌, ◌^◌, ◌<◌, ◌||◌, false, if◌then◌else◌, string_bytes, IfOk};
ghost use Rattle.mvt_tasks.specs.Checks.{is_accepted, is_found, is_refused, is_unread, status_after, summary, verdict_of};

use crate::reply::Reply;
use std::alloc::{AllocError, Global};

/// How a file was judged.
#[derive(Clone, Copy, Debug, PartialEq, Eq)]
pub enum Verdict {
    Accepted,
    /// It was accepted, and something was found of it.
    Found,
    Refused,
    /// It couldn't be opened or read.
    Unread,
}

impl Verdict {
    /// The verdict on a file for which this is answered; nothing if it couldn't be read.
    pub fn of(reply: &Option<Reply>) -> Self
        ensures { result ≡ verdict_of reply.now }
    {
        match reply {
            None => Verdict::Unread,
            Some(reply) => match &reply.error_line {
                None if reply.has_findings => Verdict::Found,
                None => Verdict::Accepted,
                Some(_) => Verdict::Refused,
            },
        }
    }
}

/// How many files were accepted, refused and unread, and whether any has findings.
#[derive(Clone, Copy, Debug)]
pub struct Tally {
    pub accepted: usize,
    pub refused: usize,
    pub unread: usize,
    pub has_findings: bool,
}

impl Tally {
    /// No file yet.
    pub fn none() -> Self
        ensures { result ≡ record { accepted = 0; refused = 0; unread = 0; has_findings = false } }
    {
        Tally {
            accepted: 0,
            refused: 0,
            unread: 0,
            has_findings: false,
        }
    }

    /// Counts one file more.
    pub fn add(&mut self, verdict: Verdict)
        requires { self.old.accepted + self.old.refused + self.old.unread + 1 < 2 ^ 64 }
        ensures accepted { self.new.accepted ≡ self.old.accepted +
            (if is_accepted verdict then 1 else 0) }
        ensures refused { self.new.refused ≡ self.old.refused +
            (if is_refused verdict then 1 else 0) }
        ensures unread { self.new.unread ≡ self.old.unread + (if is_unread verdict then 1 else 0) }
        ensures found { self.new.has_findings ≡ self.old.has_findings || is_found verdict }
    {
        match verdict {
            Verdict::Accepted => self.accepted += 1,
            Verdict::Found => {
                self.accepted += 1;
                self.has_findings = true;
            }
            Verdict::Refused => self.refused += 1,
            Verdict::Unread => self.unread += 1,
        }
    }

    /// The status of a run over such files.
    pub fn status(self) -> u8
        ensures { result ≡ status_after self }
    {
        if self.unread > 0 {
            3
        } else if self.refused > 0 {
            1
        } else if self.has_findings {
            5
        } else {
            0
        }
    }

    /// The summary of this many files, with its line feed; nothing for less than two.
    ///
    /// # Errors
    ///
    /// When memory runs out.
    #[tactic(auto, unfolding(crate::specs::Checks::summary))]
    pub fn line(self, alloc: Global, all: usize) -> Result<String, AllocError>
        ensures { IfOk result (λ line. string_bytes line ≡ summary all self) }
    {
        let Tally {
            accepted,
            refused,
            unread,
            ..
        } = self;
        if all < 2 {
            return Ok(String::new(alloc));
        }
        format!(in alloc;
            "mvt: {all} tiles: {accepted} accepted, {refused} refused, {unread} unread\n"
        )
    }
}
