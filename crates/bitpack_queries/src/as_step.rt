//! What is a step of a query, or stands for one.

ghost use Rattle.std.specs.Prelude.{◌≡◌};
ghost use Rattle.bitpack_queries.specs.declared.step.Step.{Step};

use crate::step::Step;

/// A step of a query, or what stands for one.
pub trait AsStep {
    // The step.
    ghost its_step: { Self → Step };

    /// The step.
    fn as_step(&self) -> Step
        ensures { result ≡ its_step self.now };
}

impl AsStep for Step {
    ghost its_step = { λ step. step };

    #[inline(always)]
    fn as_step(&self) -> Step {
        *self
    }
}
