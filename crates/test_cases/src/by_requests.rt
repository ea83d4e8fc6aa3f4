//! Runs cases with the calls of a connection and its requests, on one thread.
use crate::holding::{Below, Connected, Holding, Input};
use crate::shared::{Shared, TrialSocket};
use crate::treating::treat;
use std::alloc::{AllocError, Global};
use std::sync::{Arc, Mutex, Wait};
use test_case_files::case::Case;
use test_case_trials::outcome::Outcome;
use test_case_trials::report::Runner;
use test_case_trials::steps::{StepsFault, steps_of};
use test_case_trials::trial::Trial;
use tiny_http_request::client::ClientConnection;
use tiny_http_socket::cork::halves;

/// Whether responses are sent one by one or together.
#[derive(Clone, Copy, Debug, PartialEq, Eq)]
pub(crate) enum Leaving {
    /// One by one, as by a server whose requests are received with `recv`.
    Alone,
    /// Successive responses together, as by a server that serves with a handler.
    Together,
}

/// Runs the steps of a case with the calls of a connection and its requests.
#[derive(Drop)]
pub(crate) struct ByRequests<R> {
    rt: R,
    leaving: Leaving,
}

impl<R> ByRequests<R> {
    /// Creates a runner on this runtime.
    pub(crate) fn new(rt: R, leaving: Leaving) -> ByRequests<R> {
        ByRequests { rt, leaving }
    }
}

impl<R: Wait + Copy> ByRequests<R> {
    // Creates a connection over this reader and this writer.
    fn connected(
        &self,
        alloc: Global,
        case: &Case,
        (reader, writer): (Input<R>, Below<R>),
    ) -> Result<Holding<R>, AllocError> {
        let cork = Arc::try_clone(writer.cork())?;
        let made = ClientConnection::over_with(
            self.rt,
            alloc,
            case.profile,
            writer,
            reader,
            None,
            false,
        );
        let mut client: Connected<R> = made?;
        if self.leaving == Leaving::Together {
            client.set_flush_policy(Arc::try_clone(cork.flush_policy())?);
        }
        Ok(Holding::new(alloc, client, cork))
    }
}

impl<R: Wait + Copy> Runner for ByRequests<R> {
    fn how(&self) -> &'static str {
        match self.leaving {
            Leaving::Alone => " by requests",
            Leaving::Together => " by requests whose answers wait",
        }
    }

    /// Returns `false`: a request does not report its number.
    fn knows_numbers(&self) -> bool {
        false
    }

    /// Returns whether no step has to wait, since a single thread can't wait for itself. If responses are sent
    /// together, also returns `false` for a case that limits what its writer accepts, since a later step than in the
    /// case may then report the writer's error.
    fn takes(&self, case: &Case) -> bool {
        if self.leaving == Leaving::Together && case.room.is_some() {
            return false;
        }
        case.steps
            .iter()
            .all(|step| step.reply.as_slice() != b"notyet".as_slice())
    }

    /// Makes the call of each step, and finally sends what is still buffered.
    fn run(&mut self, alloc: Global, case: &Case, trial: Trial) -> Result<Outcome, StepsFault> {
        let writer = Arc::new(alloc, Mutex::new(trial.writer(alloc, case)));
        let writer = writer.map_err(AllocError::from)?;
        let theirs = TrialSocket::new(Shared::new(self.rt, Arc::try_clone(&writer)?));
        let reader = trial.reader(alloc, case)?;
        let both = halves(self.rt, alloc, reader, theirs)?;
        let mut holding = self.connected(alloc, case, both)?;
        let mut replies = Vec::new(alloc);
        let mut wanted = case.steps.iter().filter(|step| !step.is_date());
        for timed in steps_of(alloc, case)? {
            let reply = match wanted.next() {
                Some(step) => step.reply.as_slice(),
                None => b"",
            };
            let line = treat(alloc, &mut holding, timed, reply)?;
            replies.push(line).map_err(AllocError::from)?;
        }
        holding.send_held();
        let writer = writer.lock(&self.rt);
        Ok(Outcome {
            replies,
            output: writer.taken().to_vec(alloc)?,
            has_failed: writer.failures() > 0,
            failures: writer.failures(),
            later: writer.later(),
            end: None,
        })
    }
}
