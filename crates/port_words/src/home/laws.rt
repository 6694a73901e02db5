//! What the rule of a home says, as contracts of functions that do nothing.
ghost use Rattle.port_words.specs.home.Laws.{OneRuns, RunsSomewhere, BodyIsKept, TurnsBeginOnce, NewHomeKept, HomeSplitKept, HomeJoinKept, HomeLookKept, ScheduleKept, ClaimKept, WithdrawKept, BeginKept, EndKept};

use crate::home::homes::Lodged;

/// At every moment, whatever the threads do: at most one seat runs, one does where RUN says so, the body is at home where none does, and each turn begins once.
pub fn one_runs_at_every_moment<B: Lodged>()
    ensures one { OneRuns B.name }
    ensures some { RunsSomewhere B.name }
    ensures body { BodyIsKept B.name }
    ensures once { TurnsBeginOnce B.name }
{}

/// The rule holds of a new home, and each kind of step keeps it: split, join, a look, and each exchange of RUN.
pub fn home_rule_kept_by_each_step<B: Lodged>()
    ensures new { NewHomeKept B.name }
    ensures split { HomeSplitKept B.name }
    ensures join { HomeJoinKept B.name }
    ensures look { HomeLookKept B.name }
    ensures schedule { ScheduleKept B.name }
    ensures claim { ClaimKept B.name }
    ensures withdraw { WithdrawKept B.name }
    ensures begin { BeginKept B.name }
    ensures end { EndKept B.name }
{}
