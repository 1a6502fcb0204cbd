// How far a link has been walked. Upstream: `core::extract`.
ghost use Rattle.std.specs.Prelude.{◌≡◌, if◌then◌else◌};
ghost use Rattle.overlay_base.specs.declared.overlay_core.extract.VisitState.TheVariants.{Unvisited, Skipped};

/// Whether a walk has yet to come to a link, or passes over it.
#[derive(Clone, Copy, Debug, PartialEq, Eq)]
pub enum VisitState {
    /// A walk has yet to come to it.
    Unvisited,
    /// Walks pass over it.
    Skipped,
}

impl VisitState {
    /// The state of a link that is skipped, or is not.
    pub fn new(skipped: bool) -> VisitState
        ensures { result ≡ (if skipped then Skipped else Unvisited) }
    {
        if skipped {
            VisitState::Skipped
        } else {
            VisitState::Unvisited
        }
    }
}
