//! The definitions that a name led over.
ghost use Rattle.std.specs.Prelude.{◌≡◌, ◌<◌, ◌≤◌, [], ◌∷◌, ◌++◌, length};

use crate::route::PathStep;
use std::marker::Model;

/// The definitions that a name led over, in the order of their use: at most five. It takes no memory;
/// contracts see it as the list.
#[derive(Drop)]
pub struct Path {
    steps: [PathStep; 5],
    len: usize,
}

impl Model for Path {
    ghost use Rattle.std.specs.Prelude.{List, take, ◌≤◌};
    ghost use Rattle.mq_resolve.specs.declared.route.PathStep.{PathStep};

    ghost Value = { List PathStep };

    ghost view = { λ p. take p.len p.steps };

    ghost invariant = { λ p. p.len ≤ 5 };
}

impl Path {
    /// A path of no step.
    pub fn new() -> Path
        ensures { result ≡ [] }
    {
        Path {
            steps: [PathStep::DefXmitq; 5],
            len: 0,
        }
    }

    /// How many steps there are.
    pub fn len(&self) -> usize
        ensures len { result ≡ length self.now }
        ensures most { result ≤ 5 }
    {
        self.as_slice().len()
    }

    /// The steps, in the order of their use.
    pub fn as_slice(&self) -> &[PathStep]
        ensures steps { result.now ≡ self.now }
        ensures most { length self.now ≤ 5 }
    {
        let (used, _) = self.steps.split_at(self.len);
        used
    }

    /// Adds a step at the end.
    pub fn push(&mut self, step: PathStep)
        requires { length self.old < 5 }
        ensures { self.new ≡ self.old ++ step ∷ [] }
    {
        self.steps[self.len] = step;
        self.len += 1;
    }
}
