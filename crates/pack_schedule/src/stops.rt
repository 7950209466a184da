// The reasons why a script has no schedule, and failed allocations.
use std::alloc::{AllocError, AllocFailed};

/// The first picture that cannot be ready, the number of packs that it needs and the number that is free for it.
#[derive(Clone, Copy)]
pub struct LatePicture {
    pub picture: u32,
    pub need: u32,
    pub free: u32,
}

/// The reason why a script has no schedule.
#[derive(Clone, Copy, PartialEq, Eq, Debug)]
pub enum Stop {
    /// The last picture is held for longer than these program blocks.
    PastEnd { blocks: u32 },
    /// The first picture that cannot be ready, the packs that it needs, and the packs that are free for it.
    Late { picture: u32, need: u32, free: u32 },
    /// Memory ran out.
    NoMemory,
}

impl From<AllocError> for Stop {
    ghost use Rattle.std.specs.Prelude.{◌≡◌};
    ghost use Rattle.pack_schedule.specs.declared.stops.Stop.TheVariants.{NoMemory};

    ghost from_gives = { λ _ e. e ≡ NoMemory };

    fn from(_error: AllocError) -> Stop {
        Stop::NoMemory
    }
}

impl<T: Drop> From<AllocFailed<T>> for Stop {
    ghost use Rattle.std.specs.Prelude.{◌≡◌};
    ghost use Rattle.pack_schedule.specs.declared.stops.Stop.TheVariants.{NoMemory};

    ghost from_gives = { λ _ e. e ≡ NoMemory };

    fn from(_error: AllocFailed<T>) -> Stop {
        Stop::NoMemory
    }
}

impl From<LatePicture> for Stop {
    ghost use Rattle.std.specs.Prelude.{◌≡◌};
    ghost use Rattle.pack_schedule.specs.declared.stops.Stop.TheVariants.{Late};

    ghost from_gives = { λ late e. e ≡ Late late.picture late.need late.free };

    fn from(late: LatePicture) -> Stop {
        Stop::Late {
            picture: late.picture,
            need: late.need,
            free: late.free,
        }
    }
}
