// The reasons why no stream, or only a part of it, is written.
ghost use Rattle.std.specs.Prelude.{◌≡◌};

use cdg_io::Failed;
use pack_schedule::LatePicture;
use std::alloc::AllocError;
use stream_writer::LeadInStop;
use toc_model::LayoutStop;

/// The reason why a stream was not written, or only a part of it.
#[derive(Clone, Copy, PartialEq, Eq, Debug)]
pub enum AuthorStop {
    /// The audio is too short: the index lines need this many blocks.
    LengthShort { need: u32 },
    /// The program would have this many blocks.
    DiscTooLong { blocks: u32 },
    /// The last picture is held for longer than these program blocks.
    PastEnd { blocks: u32 },
    /// The texts need this many packs, and the maximum is 256.
    TextTooLong { packs: u32 },
    /// The lead-in needs this many blocks.
    LeadInShort { need: u32 },
    /// The first picture that cannot be ready, the packs that it needs, and the packs that are free for it.
    Late { picture: u32, need: u32, free: u32 },
    /// A write failed.
    WriteFault,
    /// Memory ran out. Nothing was written.
    NoMemory,
}

impl From<LayoutStop> for AuthorStop {
    ghost use Rattle.subcode_author.specs.Stops.{author_stop_of_layout};

    ghost from_gives = { λ stop e. e ≡ author_stop_of_layout stop };

    fn from(stop: LayoutStop) -> AuthorStop {
        match stop {
            LayoutStop::LengthShort { need } => AuthorStop::LengthShort { need },
            LayoutStop::DiscTooLong { blocks } => AuthorStop::DiscTooLong { blocks },
            LayoutStop::NoMemory => AuthorStop::NoMemory,
        }
    }
}

impl From<LeadInStop> for AuthorStop {
    ghost use Rattle.subcode_author.specs.Stops.{author_stop_of_lead_in};

    ghost from_gives = { λ stop e. e ≡ author_stop_of_lead_in stop };

    fn from(stop: LeadInStop) -> AuthorStop {
        match stop {
            LeadInStop::TextTooLong { packs } => AuthorStop::TextTooLong { packs },
            LeadInStop::LeadInShort { need } => AuthorStop::LeadInShort { need },
        }
    }
}

impl From<LatePicture> for AuthorStop {
    ghost use Rattle.subcode_author.specs.declared.stops.AuthorStop.TheVariants.{Late};

    ghost from_gives = { λ late e. e ≡ Late late.picture late.need late.free };

    fn from(late: LatePicture) -> AuthorStop {
        AuthorStop::Late {
            picture: late.picture,
            need: late.need,
            free: late.free,
        }
    }
}

impl From<AllocError> for AuthorStop {
    ghost use Rattle.subcode_author.specs.declared.stops.AuthorStop.TheVariants.{NoMemory};

    ghost from_gives = { λ _ e. e ≡ NoMemory };

    fn from(_: AllocError) -> AuthorStop {
        AuthorStop::NoMemory
    }
}

impl From<Failed> for AuthorStop {
    ghost use Rattle.subcode_author.specs.declared.stops.AuthorStop.TheVariants.{WriteFault};

    ghost from_gives = { λ _ e. e ≡ WriteFault };

    fn from(_: Failed) -> AuthorStop {
        AuthorStop::WriteFault
    }
}
