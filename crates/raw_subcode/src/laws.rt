// Laws on planar forms, Q bits and text packs.
ghost use Rattle.std.specs.Prelude.{◌≡◌, ◌<◌, ◌*◌, ℕ, List, All, length, take, drop};
ghost use Rattle.bit_lists.specs.Bits.{bits_of_bytes, numbers_of};
ghost use Rattle.raw_subcode.specs.Channels.{IsPlanarForm, q_bits, symbol_bits, symbols_of};
ghost use Rattle.raw_subcode.specs.PlanarBytes.{block_from_planar, planar_form};
ghost use Rattle.raw_subcode.specs.Sizes.{block_bytes, symbols_a_slot};

/// A law: each block has one planar form, and each planar form belongs to one block.
pub fn planar_forms_are_unique()
    ensures one_form { (block planar twin : List ℕ) → All (λ b. b < 256) planar → All (λ b. b < 256) twin
        → IsPlanarForm block planar → IsPlanarForm block twin → planar ≡ twin }
    ensures one_block { (block other planar : List ℕ) → length block ≡ block_bytes
        → length other ≡ block_bytes
        → All (λ b. b < 256) block → All (λ b. b < 256) other
        → IsPlanarForm block planar → IsPlanarForm other planar → block ≡ other }
{}

/// A law: the conversion of blocks to planar forms and the conversion back are inverse to each other.
pub fn planar_forms_turn_back()
    ensures block { (block : List ℕ) → length block ≡ block_bytes → All (λ b. b < 256) block
        → block_from_planar (planar_form block) ≡ block }
    ensures form { (planar : List ℕ) → length planar ≡ block_bytes → All (λ b. b < 256) planar
        → planar_form (block_from_planar planar) ≡ planar }
{}

/// A law: if a block has the bits of these twelve bytes as its Q bits, the Q frame of the block is these
/// bytes.
pub fn q_bits_are_read()
    ensures { (block frame : List ℕ) → All (λ b. b < 256) frame
        → q_bits block ≡ bits_of_bytes frame → numbers_of 8 (q_bits block) ≡ frame }
{}

/// A law: if a block has the symbols of a text pack in a slot, the text pack that is read from this slot is
/// this pack.
pub fn carried_packs_are_read()
    ensures { (block pack : List ℕ) (k : ℕ) → length pack ≡ 18 → All (λ b. b < 256) pack
        → take symbols_a_slot (drop (symbols_a_slot * k) (symbols_of block))
        ≡ numbers_of 6 (bits_of_bytes pack)
        → numbers_of 8 (symbol_bits (take symbols_a_slot (drop (symbols_a_slot * k) (symbols_of block))))
        ≡ pack }
{}
