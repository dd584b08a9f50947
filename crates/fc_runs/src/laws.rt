//! Laws of the definitions, each the contract of a function that does nothing.

ghost use Rattle.fc_runs.specs.Laws.{FewClassesAreWritten, NumbersAreTold};

/// Within a budget of at most 14,000,000 every certificate is written.
pub fn few_classes_are_written()
    ensures { FewClassesAreWritten }
{}

/// A batch whose searches take turns has at most 32 deals; a certificate of at most 14,000,000 classes is never too long.
pub fn numbers_are_told()
    ensures { NumbersAreTold }
{}
