//! The log of the steps of a run.
ghost use Rattle.std.specs.Prelude.{◌≡◌, ◌∷◌, [], Some, IfOk, IsOk};
ghost use Rattle.stun_proto.specs.Steps.{Step, step_of};
ghost use Rattle.stun_proto.specs.code.Calls.{IsKept, Keeps, kept_steps};

use crate::replay::event::AgentStep;
use std::alloc::{AllocError, Allocator};
use stun_base::memory::Memory;

/// The steps of an agent. If an allocation for a step fails, all steps are lost. The run then
/// continues without the log, until it reaches a point where it can stop.
#[derive(Drop)]
pub(crate) struct StepLog<A: Allocator> {
    /// The steps, unless they are lost.
    pub(crate) steps: Vec<AgentStep<A>, A>,
    /// Whether an allocation for a step failed.
    pub(crate) is_lost: bool,
}

impl<A: Memory> StepLog<A> {
    /// Creates a log without steps.
    pub(crate) fn new(alloc: A) -> Self
        ensures none { kept_steps result ≡ Some [] }
        ensures kept { IsKept result }
    {
        StepLog {
            steps: Vec::new(alloc),
            is_lost: false,
        }
    }

    /// Adds a step. If an allocation for it failed or fails now, all steps are lost.
    pub(crate) fn add(&mut self, step: Result<AgentStep<A>, AllocError>)
        ensures keeps { (s : Step) → IfOk step (λ x. step_of x ≡ s)
            → Keeps (kept_steps self.old) (s ∷ []) (kept_steps self.new) }
        ensures granted { A.grants → IsOk step → IsKept self.old → IsKept self.new }
    {
        match step {
            Ok(step) => {
                if A::push(&mut self.steps, step).is_err() {
                    self.is_lost = true;
                }
            }
            Err(_refused) => self.is_lost = true,
        }
    }
}
