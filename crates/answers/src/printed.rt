// What a program prints.
ghost use Rattle.answers.specs.Printing.{Prints, status_of};
ghost use Rattle.report.specs.Answer.{refusal_answer};
ghost use Rattle.std.specs.Prelude.{◌≡◌, IfOk, string_bytes};
ghost use Rattle.std.specs.Process.{exit_status};

use report::refusal_text;
use std::alloc::{AllocError, Global};
use std::process::{ExitCode, Termination};
use tables::refusal::Refusal;

// How a run ends: with an answer, or turned away.
#[derive(Clone, Copy, Drop)]
pub enum Ending {
    Answered,
    TurnedAway,
}

// As `main` returns it.
impl Termination for Ending {
    fn report<R: Eprint>(self, _rt: &R) -> ExitCode
        ensures { exit_status result ≡ status_of self }
    {
        match self {
            Ending::Answered => ExitCode::SUCCESS,
            Ending::TurnedAway => ExitCode::FAILURE,
        }
    }
}

// The text for stdout, and how the run ends.
#[derive(Drop)]
pub struct Printed {
    pub text: String,
    pub ending: Ending,
}

// The text of an answer.
pub(crate) fn answered(text: String) -> Printed
    ensures { Prints result (string_bytes text) 0 }
{
    Printed {
        text,
        ending: Ending::Answered,
    }
}

// The text of a refusal, or want of memory.
pub(crate) fn turned_away(heap: Global, refusal: Refusal) -> Result<Printed, AllocError>
    ensures { IfOk result (λ p. Prints p (refusal_answer refusal) 1) }
{
    let text = refusal_text(heap, refusal)?;
    Ok(Printed {
        text,
        ending: Ending::TurnedAway,
    })
}
