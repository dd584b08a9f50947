ghost use Rattle.std.specs.Prelude.{◌≡◌};

use fc_io::Failed;
use thiserror::Error;

/// Why a replay stopped. Steps count from 1.
#[derive(Clone, Copy, Debug, PartialEq, Eq, Error)]
pub enum ReplayFault {
    /// The token of the step is no move.
    #[error("step {0}: not a move")]
    BadMove(u32),
    /// The move of the step isn't allowed there.
    #[error("step {0}: not allowed")]
    NotAllowed(u32),
    /// The sink has failed.
    #[error("the boards can't be written")]
    Write,
}

impl From<Failed> for ReplayFault {
    ghost use Rattle.fc_replay.specs.declared.faults.ReplayFault.TheVariants.{Write};

    ghost from_gives = { λ _ fault. fault ≡ Write };

    fn from(_failed: Failed) -> ReplayFault {
        ReplayFault::Write
    }
}
