ghost use Rattle.std.specs.Prelude.{◌≡◌, IfSome, IfNone};
ghost use Rattle.reg_make.specs.Workloads.{IsWork, unit_count};

use std::marker::Model;

/// The most units that all sessions declare together. They fit into the 2^20 entries of a round, beside those that sessions may hold.
pub const UNITS_MOST: u64 = 1_000_000;

/// The most sessions: those of a round.
pub const SESSIONS_MOST: u64 = 16;

/// A seed, how many units each session declares, and how many sessions there are.
///
/// Contracts see the record of the three numbers.
#[derive(Clone, Copy, Debug, PartialEq, Eq)]
pub struct Workload {
    seed: u64,
    each: u32,
    sessions: u32,
}

impl Model for Workload {
    ghost use Rattle.reg_make.specs.Workloads.{Work, IsWork};

    ghost Value = { Work };

    ghost view = { λ w. record { seed = w.seed; each = w.each; sessions = w.sessions } };

    ghost invariant = { λ w. IsWork (record { seed = w.seed; each = w.each; sessions = w.sessions }) };

    ghost inverse = { λ v. record { seed = v.seed; each = v.each; sessions = v.sessions } };
}

impl Workload {
    /// The workload of these numbers. None exactly where there is no session, a session declares nothing, there are more than 16
    /// sessions, or they declare more than 1 000 000 units together.
    pub fn new(seed: u64, each: u64, sessions: u64) -> Option<Workload>
        ensures found { IfSome result (λ work. work ≡ record { seed = seed; each = each; sessions = sessions }) }
        ensures in_range { IfSome result IsWork }
        ensures none { IfNone result (IsWork (record { seed = seed; each = each; sessions = sessions }) → ⊥) }
    {
        if (1..=UNITS_MOST).contains(&each)
            && (1..=SESSIONS_MOST).contains(&sessions)
            && each * sessions <= UNITS_MOST
        {
            Some(Workload {
                seed,
                each: each as u32,
                sessions: sessions as u32,
            })
        } else {
            None
        }
    }

    /// The seed.
    pub fn seed(&self) -> u64
        ensures value { result ≡ self.now.seed }
        ensures range { IsWork self.now }
    {
        self.seed
    }

    /// How many units each session declares.
    pub fn each(&self) -> u32
        ensures value { result ≡ self.now.each }
        ensures range { IsWork self.now }
    {
        self.each
    }

    /// How many sessions there are.
    pub fn sessions(&self) -> u32
        ensures value { result ≡ self.now.sessions }
        ensures range { IsWork self.now }
    {
        self.sessions
    }

    /// How many units all sessions declare together.
    pub fn units(&self) -> u32
        ensures value { result ≡ unit_count self.now }
        ensures range { IsWork self.now }
    {
        self.each * self.sessions
    }
}
