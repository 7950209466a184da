// The errors of calls that request memory, as a heap counts them.
ghost use Rattle.std.specs.Prelude.{◌≡◌};
ghost use Rattle.cdg_cmd.specs.Stopped.{unwrapped};
ghost use Rattle.cdg_cmd.specs.declared.status.Status.TheVariants as status;
ghost use Rattle.cdg_press.specs.declared.stops.PressStop.TheVariants as press;
ghost use Rattle.cdtext_packs.specs.declared.kinds.TextFault.TheVariants as fault;
ghost use Rattle.stream_stages.specs.declared.played.PlayStop.TheVariants as play;

use crate::Status;
use cdg_press::PressStop;
use cdtext_packs::TextFault;
use stream_stages::PlayStop;
use subcode_author::MemoryStop;

impl MemoryStop for Status {
    ghost no_memory = { status.NoMemory };

    fn is_no_memory(&self) -> bool {
        matches!(self, Status::NoMemory)
    }
}

/// An error of another crate.
#[derive(Drop)]
pub(crate) struct Stopped<E> {
    pub(crate) stop: E,
}

impl MemoryStop for Stopped<PlayStop> {
    ghost no_memory = { record { stop = play.Text fault.NoMemory } };

    fn is_no_memory(&self) -> bool {
        matches!(self.stop, PlayStop::Text(TextFault::NoMemory))
    }
}

impl MemoryStop for Stopped<PressStop> {
    ghost no_memory = { record { stop = press.NoMemory } };

    fn is_no_memory(&self) -> bool {
        matches!(self.stop, PressStop::NoMemory)
    }
}

pub(crate) fn wrap<T, E>(answer: Result<T, E>) -> Result<T, Stopped<E>>
    ensures { unwrapped result ≡ answer }
{
    match answer {
        Ok(value) => Ok(value),
        Err(stop) => Err(Stopped { stop }),
    }
}

pub(crate) fn plain<T, E>(answer: Result<T, Stopped<E>>) -> Result<T, E>
    ensures { result ≡ unwrapped answer }
{
    match answer {
        Ok(value) => Ok(value),
        Err(Stopped { stop }) => Err(stop),
    }
}
