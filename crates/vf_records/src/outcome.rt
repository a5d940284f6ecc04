//! The outcomes that are told.

ghost use Rattle.std.specs.Prelude.{◌≡◌, slice_get, option_map};
ghost use Rattle.vf_journal.specs.Records.{told_by, outcome_told};
ghost use Rattle.vf_records.specs.Account.{solo_of};
ghost use Rattle.vf_records.specs.Layout.{place_in};
ghost use Rattle.vf_records.specs.Tables.{records_of, stands_at, AreTables};

use crate::layout::Place;
use crate::tables::Tables;
use vf_base::{Job, Outcome};
use vf_jobs::Setup;
use vf_journal::Told;

/// The place of any job, and the first one where no such node is.
fn place_of(places: &[Place], job: Job) -> usize
    ensures { result ≡ place_in places.now job }
{
    match job {
        Job::Reach(node) => match places.get(node.0 as usize) {
            Some(place) => place.reach,
            None => 0,
        },
        Job::Finish(node) => match places.get(node.0 as usize) {
            Some(place) => place.finish,
            None => 0,
        },
    }
}

/// Whether a job stands at a place.
fn stands_at(jobs: &[Job], at: usize, job: Job) -> bool
    ensures { result ≡ stands_at (slice_get jobs.now at) job }
{
    let Some(other) = jobs.get(at) else {
        return false;
    };
    match (*other, job) {
        (Job::Reach(a), Job::Reach(b)) | (Job::Finish(a), Job::Finish(b)) => a.0 == b.0,
        (Job::Reach(_), Job::Finish(_)) | (Job::Finish(_), Job::Reach(_)) => false,
    }
}

impl Tables {
    /// What any job tells; one that is no job of the plan tells nothing.
    fn told_of(&self, setup: &Setup, job: Job) -> Option<&Told>
        requires { AreTables setup.now.plan (solo_of setup.now).counts self.now }
        ensures { option_map (λ told. told.now) result ≡ told_by ((records_of self.now).stages job) }
    {
        let at = place_of(&self.layout.places, job);
        if !stands_at(&self.layout.jobs, at, job) {
            return None;
        }
        if !self.is_over_at(at) {
            return None;
        }
        self.told[at].as_ref()
    }

    /// The outcome that is told of a job: its own, or that of the run whose outcome it has.
    pub(crate) fn outcome(&self, setup: &Setup, job: Job) -> Option<&Outcome>
        requires { AreTables setup.now.plan (solo_of setup.now).counts self.now }
        ensures { option_map (λ outcome. outcome.now) result ≡ outcome_told (records_of self.now) job }
    {
        match self.told_of(setup, job)? {
            Told::Own(outcome) => Some(outcome),
            Told::Copied(node) => match self.told_of(setup, Job::Reach(*node))? {
                Told::Own(outcome) => Some(outcome),
                Told::Copied(_) | Told::Lost => None,
            },
            Told::Lost => None,
        }
    }
}
