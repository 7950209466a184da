// A pointer to a player, for C.
ghost use Rattle.std.specs.Prelude.{◌≡◌, ◌∷◌, [], List, length};
ghost use Rattle.ribjasper_c.specs.Handles.{handle_owns, players_coded};
ghost use Rattle.live_player.specs.declared.live.LivePlayer.{LivePlayer};

mod lending;
mod parts;

use live_player::LivePlayer;
use parts::Parts;
use std::alloc::Global;
use std::marker::Model;

/// A pointer to a player, or to nothing. It has no `Drop`: a player must be taken out, and only a handle of no player
/// can be released.
#[repr(C)]
pub struct Handle {
    at: *mut u8,
    alloc: Global,
    pub ghost players: { List LivePlayer } by { players_coded },
}

impl Model for Handle {
    ghost also_owns = { λ h. handle_owns h.alloc h.at h.players };
}

// A player holds only numbers, and the heap can free its memory from any thread.
unsafe impl Send for Handle {}

impl Handle {
    /// A handle of no player.
    pub fn none(alloc: Global) -> Handle
        ensures { result.players ≡ [] }
    {
        Handle {
            at: std::ptr::null_mut(),
            alloc,
        }
    }

    pub fn of(player: Box<LivePlayer>) -> Handle
        ensures { result.players ≡ player.value ∷ [] }
    {
        Handle::of_parts(Parts::of(player))
    }

    /// The player of a handle.
    pub fn into_box(self) -> Box<LivePlayer>
        requires { length self.players ≡ 1 }
        ensures { self.players ≡ result.value ∷ [] }
    {
        self.into_parts().into_box()
    }

    /// Releases a handle of no player, and returns its allocator.
    pub fn release(self) -> Global
        requires { length self.players ≡ 0 }
        ensures { result ≡ self.alloc }
    {
        let Handle { at: _, alloc } = self;
        alloc
    }

    // A handle of the player in a box with visible fields.
    fn of_parts(parts: Parts<LivePlayer, Global>) -> Handle
        ensures { result.players ≡ parts.value ∷ [] }
    {
        let Parts { ptr, alloc } = parts;
        Handle {
            at: ptr as *mut u8,
            alloc,
        }
    }

    // The box of its player, with visible fields.
    fn into_parts(self) -> Parts<LivePlayer, Global>
        requires { length self.players ≡ 1 }
        ensures { self.players ≡ result.value ∷ [] }
    {
        let Handle { at, alloc } = self;
        Parts {
            ptr: at as *mut LivePlayer,
            alloc,
        }
    }
}
