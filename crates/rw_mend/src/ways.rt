// The way in which a word of two readings is mended.
ghost use Rattle.std.specs.Prelude.{◌≡◌, ◌≤◌, length};
ghost use Rattle.rw_mend.specs.Streams.{way_by, way_of};

use crate::choice::votes;
use crate::{Candidate, Mended, WordSource};

/// The way in which a word of two readings is mended.
#[derive(Clone, Copy)]
pub(crate) enum Way {
    /// Both readings have the codeword.
    Both,
    /// Only the first reading has the codeword.
    First,
    /// Only the second reading has the codeword.
    Second,
    /// The two readings agree on the codeword.
    Together,
}

/// The way in which a word is mended, if it is.
pub(crate) fn found_by(candidates: &[Candidate], found: &Option<Mended>) -> Option<Way>
    requires { length candidates.now ≤ 254 }
    ensures { result ≡ way_of candidates.now found.now }
{
    match found {
        Some(mended) => Some(way_by(candidates, mended)),
        None => None,
    }
}

fn way_by(candidates: &[Candidate], mended: &Mended) -> Way
    requires { length candidates.now ≤ 254 }
    ensures { result ≡ way_by mended.now.source candidates.now mended.now.pack }
{
    match mended.source {
        WordSource::Reading(r) => {
            if votes(candidates, &mended.pack) == 2 {
                Way::Both
            } else if r == 0 {
                Way::First
            } else {
                Way::Second
            }
        }
        WordSource::Agreed => Way::Together,
    }
}
