ghost use Rattle.std.specs.Prelude.{◌≡◌, IfSome, IfNone};
ghost use Rattle.fc_words.specs.Names.{task_name};
ghost use Rattle.fc_words.specs.declared.tasks.Task.{Task};

use crate::name_places::place_of;

/// What the program can be asked to do: a subcommand each.
#[derive(Clone, Copy)]
pub enum Task {
    /// Prints a numbered deal.
    Deal,
    /// Draws a board.
    Show,
    /// Tells the best that a moment's work gives of a board.
    Best,
    /// Tells the next moves of the best answer of a board.
    Hint,
    /// Solves a board.
    Solve,
    /// Checks a certificate.
    Check,
    /// Replays a list of moves.
    Replay,
    /// Tells where a list of moves loses, or how good it is.
    Review,
    /// Solves several numbered deals.
    Batch,
}

impl Task {
    /// Each subcommand's name, in the order of the tasks.
    pub const NAMES: [&'static str; 9] = [
        "deal", "show", "best", "hint", "solve", "check", "replay", "review", "batch",
    ];

    /// The tasks, in the order of help.
    pub const ALL: [Task; 9] = [
        Task::Deal,
        Task::Show,
        Task::Best,
        Task::Hint,
        Task::Solve,
        Task::Check,
        Task::Replay,
        Task::Review,
        Task::Batch,
    ];

    /// The subcommand's name.
    pub fn name(self) -> &'static str
        ensures value { result.now ≡ task_name self }
    {
        Task::NAMES[self as usize]
    }

    /// The task of this name; `None` where it is none's.
    pub fn of_name(name: &str) -> Option<Task>
        ensures named { IfSome result (λ task. task_name task ≡ name.now) }
        ensures unknown { IfNone result ((task : Task) → task_name task ≡ name.now → ⊥) }
    {
        let place = place_of(Task::NAMES.as_slice(), name)?;
        Task::ALL.get(place).copied()
    }
}
