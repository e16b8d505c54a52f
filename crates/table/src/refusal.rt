// Why a call is refused.

ghost use Rattle.std.specs.Prelude.{◌≡◌};
ghost use Rattle.table.specs.Refusal.{number};

// One for each of document 01's answers 1 to 9, with that number.
#[derive(Clone, Copy)]
pub enum Refusal {
    // A size, the width or the step limit is out of range.
    BadSize = 1,
    // A kind is unknown, or a word that the kind doesn't use is not 0.
    BadKind,
    // A child is not below its parent, or Nest's words are out of range.
    BadChild,
    // A Text's range leaves the text bytes.
    BadRange,
    // A Text is not well-formed, has a line feed, or its columns are wrong.
    BadText,
    // Fail met outside every trial.
    FailMet,
    // A node is due and the steps equal the limit.
    NoSteps,
    // Bytes don't fit the output.
    NoOutput,
    // An event doesn't fit.
    NoEvents,
}

// The number that answers.
impl From<Refusal> for u32 {
    ghost from_gives = { λ why answer. answer ≡ number why };

    fn from(why: Refusal) -> u32 {
        why as u32
    }
}
