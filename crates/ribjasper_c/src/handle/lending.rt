// Lending the player of a handle.
ghost use Rattle.std.specs.Prelude.{◌≡◌, ◌∷◌, [], length};
ghost use Rattle.ribjasper_c.specs.Lent.{handle_follows};
ghost use types.Logic.{sem};

use super::Handle;
use live_player::LivePlayer;

impl Handle {
    /// Lends the player of a handle. The player is not moved, so nothing is written to the handle.
    pub fn lend(&mut self) -> &mut LivePlayer
        requires { length self.old.players ≡ 1 }
        ensures* writes_back { sem 𝓛 (handle_follows self.entry result) }
        ensures value { self.old.players ≡ result.now ∷ [] }
    {
        unsafe { &mut *(self.at as *mut LivePlayer) }
    }
}
