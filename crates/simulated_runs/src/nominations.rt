//! Who is named for the next step, by a schedule.

ghost use Rattle.std.specs.Prelude.{◌≤◌, length};
ghost use Rattle.step_trace.specs.declared.configurations.TheConstants.{MAX_PROCESSORS};
ghost use Rattle.simulated_runs.specs.Crashes.{IsSomeUp, IsUpIn};
ghost use Rattle.simulated_runs.specs.Nominations.{IsNominating};

use crate::crashes::up_from;
use crate::generators::Generator;
use command_options::Schedule;

/// A burst has at most so many steps for each processor.
const BURST_SHARE: u64 = 10;

/// Who was named last, by a schedule.
#[derive(Debug, Drop)]
pub(crate) struct Nominator {
    schedule: Schedule,
    /// The processor that was named last; 0 before the first.
    named: u64,
    /// How many steps more are due in its burst.
    left: u64,
}

impl Nominator {
    /// Before the first step.
    pub(crate) fn new(schedule: Schedule) -> Self
        ensures { IsNominating 0 result }
    {
        Nominator {
            schedule,
            named: 0,
            left: 0,
        }
    }

    /// Names a processor for the step of this tick; `lasts` has for each the last tick in which it may step.
    ///
    /// By `Turns` it is the one after the one that was named last; by `Random` one that is drawn. By `Bursts` it is the
    /// one that was named last while its burst goes on, and then one that is drawn, with the length of its burst. If
    /// that one has crashed, it is the next one that hasn't.
    pub(crate) fn name(&mut self, generator: &mut Generator, lasts: &[u64], tick: u64) -> u64
        requires some { 1 ≤ length lasts.now }
        requires few { length lasts.now ≤ MAX_PROCESSORS }
        requires nominating { IsNominating (length lasts.now) self.old }
        ensures nominating { IsNominating (length lasts.now) self.new }
        ensures up { IsSomeUp lasts.now tick → IsUpIn lasts.now result tick }
        ensures low { 1 ≤ result }
        ensures high { result ≤ length lasts.now }
    {
        let candidate = self.candidate(generator, lasts.len() as u64);
        self.named = up_from(lasts, candidate, tick);
        self.named
    }

    /// Who of `n` processors is named, crashed or not.
    fn candidate(&mut self, generator: &mut Generator, n: u64) -> u64
        requires some { 1 ≤ n }
        requires few { n ≤ MAX_PROCESSORS }
        requires nominating { IsNominating n self.old }
        ensures low { 1 ≤ result }
        ensures high { result ≤ n }
    {
        match self.schedule {
            Schedule::Turns => self.named % n + 1,
            Schedule::Random => generator.below(n) + 1,
            Schedule::Bursts => self.in_burst(generator, n),
        }
    }

    /// Who goes on in its burst, or begins one.
    fn in_burst(&mut self, generator: &mut Generator, n: u64) -> u64
        requires some { 1 ≤ n }
        requires few { n ≤ MAX_PROCESSORS }
        requires nominating { IsNominating n self.old }
        ensures low { 1 ≤ result }
        ensures high { result ≤ n }
    {
        if self.left > 0 {
            self.left -= 1;
            return self.named;
        }
        let named = generator.below(n) + 1;
        self.left = generator.below(BURST_SHARE * n);
        named
    }
}
