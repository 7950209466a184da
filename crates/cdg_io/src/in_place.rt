// Stages that change units in place.
ghost use Rattle.std.specs.Prelude.{◌≡◌, ◌<◌, ◌≤◌, ◌*◌, List, ℕ, Some, length, take, drop};
ghost use Rattle.std.specs.List.{concat};
ghost use Rattle.std.specs.declared.option.Option.{Option};
ghost use Rattle.cdg_io.specs.Change.{from_to};
ghost use Rattle.cdg_io.specs.Pump.{Works, units_of};
ghost use Rattle.cdg_io.specs.Run.{run_state, run_gives};

use crate::piece::CAPACITY;
use crate::{PassedUnits, Piece};

/// A type that changes units of SIZE bytes in place. A `UnitStage` can implement its calls by `take_in_place`
/// and `take_row_in_place`.
pub trait InPlace {
    ghost SIZE: { ℕ };

    /// The state after a unit.
    ghost next: { Self → List ℕ → Self };

    /// The changed unit. It is always `Some`.
    ghost gives: { Self → List ℕ → Option (List ℕ) };

    /// How many bytes a unit has.
    const SIZE: usize;

    /// Changes a unit.
    fn change(&mut self, unit: &mut [u8])
        requires { length unit.old ≡ SIZE }
        ensures next { self.new ≡ next self.old unit.old }
        ensures gives { Some unit.new ≡ gives self.old unit.old };

    /// Changes `count` adjacent units.
    fn change_row(&mut self, units: &mut [u8], count: usize)
        requires { length units.old ≡ SIZE * count }
        ensures next { self.new ≡ run_state next self.old (units_of SIZE count units.old) }
        ensures gives { units.new ≡ concat (run_gives next gives self.old (units_of SIZE count units.old)) };
}

/// Changes a copy of a unit, and leaves it in `given`. It is not inlined, since only units that arrive in
/// parts need it.
#[cold]
#[inline(never)]
pub fn take_in_place<G: InPlace>(stage: &mut G, unit: &[u8], given: &mut Option<Piece>)
    requires size { length unit.now ≡ G.SIZE }
    requires fits { G.SIZE ≤ 128 }
    ensures next { stage.new ≡ G.next stage.old unit.now }
    ensures gives { given.new ≡ G.gives stage.old unit.now }
{
    let mut room = [0; CAPACITY];
    let place = &mut room[..unit.len()];
    place.copy_from_slice(unit);
    stage.change(place);
    let mut piece = Piece::new();
    piece.set(place);
    *given = Some(piece);
}

/// Processes units from the front of a row of bytes. It copies all whole units at once and changes the
/// copies, since most bytes stay the same.
#[inline]
pub fn take_row_in_place<G: InPlace>(
    stage: &mut G,
    row: &mut &[u8],
    buffer: &mut [u8],
    start: usize,
    most: u32,
) -> PassedUnits
    requires size { 0 < G.SIZE }
    requires start { start ≤ length buffer.old }
    ensures works { (taken : List ℕ) × Works G.SIZE (record { next = G.next; gives = G.gives }) (record {
      left = from_to (Some row.old.now) (Some row.new.now);
      state = from_to stage.old stage.new;
      held = from_to (Some (take start buffer.old)) (Some (take result.end buffer.new));
    }) result.units taken }
    ensures most { result.units ≤ most }
    ensures within { (start ≤ result.end) × (result.end ≤ length buffer.new) }
    ensures behind { drop result.end buffer.new ≡ drop result.end buffer.old }
{
    let unit = G::SIZE;
    let room = (buffer.len() - start) / unit;
    let count = (row.len() / unit).min(room).min(most as usize);
    let size = unit * count;
    let end = start + size;
    let place = &mut buffer[start..end];
    place.copy_from_slice(&row[..size]);
    stage.change_row(place, count);
    *row = &row[size..];
    PassedUnits {
        units: count as u32,
        end,
    }
}
