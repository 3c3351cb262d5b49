//! A session: an engine that takes the lines of a script.

ghost use Rattle.std.specs.Prelude.{◌≡◌, ◌+◌, ◌-◌, ◌^◌, ◌<◌, ◌≤◌, [], Some, None, true, false, IfOk, OnOk};
ghost use Rattle.ks_outside.specs.Shown.{Drew};
ghost use Rattle.rule_model.specs.declared.event.Act.TheVariants as acts;
ghost use Rattle.rule_model.specs.Drawn.{is_entropy_fault};
ghost use Rattle.rule_model.specs.Acts as acts_spec;
ghost use Rattle.rule_model.specs.Entries.{History};
ghost use Rattle.rule_model.specs.Setup.{Setup};
ghost use Rattle.keystore_run.specs.Answers.{IsAnswer, text_in};
ghost use Rattle.keystore_run.specs.Follows as spec;
ghost use Rattle.keystore_run.specs.SessionKept.{IsSession};

use crate::answer::{Answer, malformed};
use crate::jobs::{Jobs, run_job};
use crate::telling::Telling;
use crate::written::Written;
use keystore_core::Engine;
use ks_outside::{Disk, Entropy};
use line_members::LineFault;
use rule_model::{Act, Event, Line, Reading, Reply, Stepped};
use script_lines::event_of;
use std::alloc::Global;
use tags::NoMemory;

/// An engine that takes the lines of a script, one after another, with the jobs of the works that are out.
#[derive(Drop)]
pub struct Session {
    engine: Engine,
    jobs: Jobs,
    ghost stands: { ∥ IsSession engine jobs ∥₁ },
}

/// The ticket whose leave a line makes at once.
fn ticket_due(hold: bool, reply: &Reply) -> Option<u64>
    ensures { result ≡ spec.ticket_due hold reply.now }
{
    match reply {
        Reply::Done(fields) => { if hold { None } else { fields.ticket } }
        _ => None,
    }
}

/// The leave that a line makes.
fn leave_at(reading: Reading, ticket: u64) -> Event
    ensures { result ≡ spec.leave_at reading ticket }
{
    Event {
        reading,
        client: 0,
        act: Act::Leave { ticket },
    }
}

impl Session {
    ghost use Rattle.keystore_run.specs.Jobs.{JobsStand};
    ghost use Rattle.keystore_run.specs.Session.{HasRoom, StandsFor, Serves, StepsTo, devices, engine_of, entries_in, jobs_of};
    ghost use Rattle.keystore_run.specs.SessionKept.{IsIdle};

    /// A session over an engine none of whose works is out.
    pub fn new(alloc: Global, engine: Engine) -> Session
        requires { ∥ IsIdle engine ∥₁ }
        ensures engine { engine_of result ≡ engine }
        ensures jobs { (setup : Setup) → JobsStand setup (jobs_of result) [] }
    {
        Session {
            engine,
            jobs: Jobs::new(alloc),
        }
    }

    /// Takes the room of the next ticket's job.
    fn reserve(&mut self) -> Result<(), NoMemory>
        requires { entries_in self.old < 2 ^ 62 }
        ensures room { OnOk result (HasRoom self.new) }
        ensures jobs { (setup : Setup) (past : History) → JobsStand setup (jobs_of self.old) past → JobsStand setup (jobs_of self.new) past }
        ensures engine { engine_of self.new ≡ engine_of self.old }
    {
        let next = self.engine.next_ticket();
        self.jobs.reserve(next)
    }

    /// Makes the step of a leave: the job of its ticket is run, and what it comes back with goes to the engine.
    fn leave<D: Disk, N: Entropy>(
        &mut self,
        disk: &mut D,
        entropy: &mut N,
        event: Event,
        ticket: u64,
    ) -> Stepped
        requires few { entries_in self.old < 2 ^ 62 }
        requires act { event.act ≡ acts.Leave ticket }
        ensures steps { (setup : Setup) (past : History) → StandsFor D.Disk setup self.old disk.old past → StepsTo D.Disk setup past self.new disk.old disk.new event result }
        ensures entries { entries_in self.new ≡ entries_in self.old + 1 }
        ensures drew { Drew N.Entropy entropy.old entropy.new result.drawn (is_entropy_fault result.reply) }
    {
        let done = run_job(self.jobs.take(ticket));
        self.engine.step(disk, entropy, event, done)
    }

    /// Makes the step of a restart. Where it is admitted no work is out any more.
    fn restart<D: Disk, N: Entropy>(
        &mut self,
        disk: &mut D,
        entropy: &mut N,
        event: Event,
    ) -> Stepped
        requires few { entries_in self.old < 2 ^ 62 }
        requires act { acts_spec.is_restart event.act ≡ true }
        ensures steps { (setup : Setup) (past : History) → StandsFor D.Disk setup self.old disk.old past → StepsTo D.Disk setup past self.new disk.old disk.new event result }
        ensures entries { entries_in self.new ≤ entries_in self.old + 2 }
        ensures drew { Drew N.Entropy entropy.old entropy.new result.drawn (is_entropy_fault result.reply) }
    {
        let stepped = self.engine.step(disk, entropy, event, None);
        self.jobs.clear_if(stepped.reply.is_done());
        stepped
    }

    /// Makes the step of an event: of a leave, of a restart, or of another one, and then it holds the job of a work that goes out.
    fn step<D: Disk, N: Entropy>(&mut self, disk: &mut D, entropy: &mut N, event: Event) -> Stepped
        requires few { entries_in self.old < 2 ^ 62 }
        requires room { HasRoom self.old }
        ensures steps { (setup : Setup) (past : History) → StandsFor D.Disk setup self.old disk.old past → StepsTo D.Disk setup past self.new disk.old disk.new event result }
        ensures entries { entries_in self.new ≤ entries_in self.old + 2 }
        ensures drew { Drew N.Entropy entropy.old entropy.new result.drawn (is_entropy_fault result.reply) }
    {
        if let Some(ticket) = event.act.ticket() {
            return self.leave(disk, entropy, event, ticket);
        }
        if event.act.is_restart() {
            return self.restart(disk, entropy, event);
        }
        let next = self.engine.next_ticket();
        let Stepped {
            settled,
            reply,
            job,
            drawn,
        } = self.engine.step(disk, entropy, event, None);
        self.jobs.hold(next, job);
        Stepped {
            settled,
            reply,
            job: None,
            drawn,
        }
    }

    /// Makes the steps of one line and gives what is written of them. Of a line that enters without holding these are the enter and
    /// its leave, with the leave's reply; before a reply line stands the settled line, where the first step settled an earlier change.
    /// In a trace each entry has its line.
    /// After want of memory the session stands for the history with all of the line's entries, or with none of them. What the
    /// entropy gave was drawn for these entries. One of them is the reply to a failed draw exactly where a draw failed, or to
    /// a failed call of the disk exactly where one failed, and one at most. At each moment since the line's start each image
    /// stands for what may be kept of a history between the one before the line and the one after it, and when the text is
    /// given of the one after it: what the line changes of what lasts is on the disk by then.
    pub fn answer<D: Disk, N: Entropy>(
        &mut self,
        alloc: Global,
        written: Written,
        disk: &mut D,
        entropy: &mut N,
        line: &[u8],
    ) -> Result<Answer, NoMemory>
        requires few { entries_in self.old < 2 ^ 62 - 2 }
        ensures serves { (setup : Setup) (past : History) → StandsFor D.Disk setup self.old disk.old past →
            Serves D.Disk N.Entropy written setup past self.new line.now (devices disk.old entropy.old) (devices disk.new entropy.new) (text_in result) }
        ensures answer { IfOk result (IsAnswer written) }
        ensures entries { entries_in self.new ≤ entries_in self.old + 3 }
    {
        let line = match event_of(alloc, line) {
            Ok(line) => line,
            Err(LineFault::Malformed) => return malformed(alloc, written),
            Err(LineFault::Memory) => return Err(NoMemory),
        };
        let Line { event, hold } = line;
        let reading = event.reading;
        let Ok(telling) = Telling::of(alloc, written, &event) else {
            drop(event);
            return Err(NoMemory);
        };
        let Ok(()) = self.reserve() else {
            drop(event);
            drop(telling);
            return Err(NoMemory);
        };
        let stepped = self.step(disk, entropy, event);
        let Some(ticket) = ticket_due(hold, &stepped.reply) else {
            return telling.step(alloc, stepped);
        };
        let left = self.leave(disk, entropy, leave_at(reading, ticket), ticket);
        telling.step_and_leave(alloc, stepped, leave_at(reading, ticket), left)
    }
}
