//! The jobs that a session holds, each under the ticket of its enter.

ghost use Rattle.std.specs.Prelude.{◌≡◌, None, ℕ, OnOk};
ghost use Rattle.keystore_run.specs.Jobs.{ClearsJobs, HasRoomForJob, Holds, Ran, SameJobs, SetsJob, job_in};

use cipher_ops::{Done, Job};
use std::alloc::Global;
use std::collections::BTreeMap;
use tags::NoMemory;

/// The held jobs by their tickets. A place without a job is room for one.
#[derive(Drop)]
pub struct Jobs {
    places: BTreeMap<u64, Option<Job>>,
}

/// Runs a job, where there is one.
pub fn run_job(job: Option<Job>) -> Option<Done>
    ensures { Ran job result }
{
    match job {
        Some(job) => Some(job.run()),
        None => None,
    }
}

impl Jobs {
    pub fn new(alloc: Global) -> Jobs
        ensures { (ticket : ℕ) → job_in result ticket ≡ None }
    {
        Jobs {
            places: BTreeMap::new(alloc),
        }
    }

    /// Takes the room of a ticket's job.
    pub fn reserve(&mut self, ticket: u64) -> Result<(), NoMemory>
        ensures room { OnOk result (HasRoomForJob self.new ticket) }
        ensures same { SameJobs self.old self.new }
    {
        if !self.places.contains_key(&ticket) {
            self.places.insert(ticket, None)?;
        }
        Ok(())
    }

    /// Holds the job of a ticket, where there is one.
    pub fn hold(&mut self, ticket: u64, job: Option<Job>)
        requires { HasRoomForJob self.old ticket }
        ensures { Holds ticket job self.old self.new }
    {
        let Some(job) = job else { return };
        match self.places.get_mut(&ticket) {
            Some(place) => *place = Some(job),
            None => unreachable!(),
        }
    }

    /// Drops all jobs, or none.
    pub fn clear_if(&mut self, all: bool)
        ensures { ClearsJobs all self.old self.new }
    {
        if all {
            self.places.clear();
        }
    }

    /// Takes the job of a ticket out, where it is held.
    pub fn take(&mut self, ticket: u64) -> Option<Job>
        ensures job { result ≡ job_in self.old ticket }
        ensures taken { SetsJob ticket None self.old self.new }
    {
        match self.places.remove(&ticket) {
            Some(job) => job,
            None => None,
        }
    }
}
