// The reasons why no stream, or only a part of it, is pressed.
use cdg_io::Failed;
use std::alloc::AllocError;
use stream_writer::LeadInStop;
use toc_model::LayoutStop;

/// The reason why a stream was not pressed, or only a part of it.
#[derive(Clone, Copy, PartialEq, Eq, Debug)]
pub enum PressStop {
    /// The file has fewer than 24 bytes after this many whole packs.
    PackTorn { pack: u32 },
    /// The audio file is too short: the index lines need this many blocks.
    LengthShort { need: u32 },
    /// The program would have this many blocks.
    DiscTooLong { blocks: u32 },
    /// The number of the first track with a gap. With a gap, the time of the file would differ from the time of the
    /// disc.
    Gap { track: u8 },
    /// The number of packs of the file, and the number that the audio has room for.
    CdgTooLong { packs: u32, room: u32 },
    /// The texts need this many packs, and the maximum is 256.
    TextTooLong { packs: u32 },
    /// The lead-in needs this many blocks.
    LeadInShort { need: u32 },
    /// A write failed.
    WriteFault,
    /// Memory ran out. Nothing was written.
    NoMemory,
}

impl From<LayoutStop> for PressStop {
    ghost use Rattle.std.specs.Prelude.{◌≡◌};
    ghost use Rattle.cdg_press.specs.Stops.{press_stop_of_layout};

    ghost from_gives = { λ stop e. e ≡ press_stop_of_layout stop };

    fn from(stop: LayoutStop) -> PressStop {
        match stop {
            LayoutStop::LengthShort { need } => PressStop::LengthShort { need },
            LayoutStop::DiscTooLong { blocks } => PressStop::DiscTooLong { blocks },
            LayoutStop::NoMemory => PressStop::NoMemory,
        }
    }
}

impl From<LeadInStop> for PressStop {
    ghost use Rattle.std.specs.Prelude.{◌≡◌};
    ghost use Rattle.cdg_press.specs.Stops.{press_stop_of_lead_in};

    ghost from_gives = { λ stop e. e ≡ press_stop_of_lead_in stop };

    fn from(stop: LeadInStop) -> PressStop {
        match stop {
            LeadInStop::TextTooLong { packs } => PressStop::TextTooLong { packs },
            LeadInStop::LeadInShort { need } => PressStop::LeadInShort { need },
        }
    }
}

impl From<AllocError> for PressStop {
    ghost use Rattle.std.specs.Prelude.{◌≡◌};
    ghost use Rattle.cdg_press.specs.declared.stops.PressStop.TheVariants.{NoMemory};

    ghost from_gives = { λ _ e. e ≡ NoMemory };

    fn from(_: AllocError) -> PressStop {
        PressStop::NoMemory
    }
}

impl From<Failed> for PressStop {
    ghost use Rattle.std.specs.Prelude.{◌≡◌};
    ghost use Rattle.cdg_press.specs.declared.stops.PressStop.TheVariants.{WriteFault};

    ghost from_gives = { λ _ e. e ≡ WriteFault };

    fn from(_: Failed) -> PressStop {
        PressStop::WriteFault
    }
}
