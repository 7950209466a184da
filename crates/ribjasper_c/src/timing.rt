// Conversion of milliseconds to blocks and packs: 75 blocks and 300 packs a second.
ghost use Rattle.std.specs.Prelude.{◌≡◌, ◌≤◌, ◌*◌, ◌/◌, ◌↔◌, ℕ};

/// The number of blocks that are complete after this number of milliseconds.
#[unsafe(no_mangle)]
pub extern "C" fn ribjasper_blocks_after(milliseconds: u32) -> u32
    ensures { result ≡ 75 * milliseconds / 1000 }
{
    (75 * u64::from(milliseconds) / 1000) as u32
}

/// The number of packs that are complete after this number of milliseconds.
#[unsafe(no_mangle)]
pub extern "C" fn ribjasper_packs_after(milliseconds: u32) -> u32
    ensures { result ≡ 300 * milliseconds / 1000 }
{
    (300 * u64::from(milliseconds) / 1000) as u32
}

/// The smallest number of milliseconds after which this number of blocks is complete.
#[unsafe(no_mangle)]
pub extern "C" fn ribjasper_time_of_blocks(blocks: u32) -> u64
    ensures { (milliseconds : ℕ) → (result ≤ milliseconds) ↔ (blocks ≤ 75 * milliseconds / 1000) }
{
    (1000 * u64::from(blocks)).div_ceil(75)
}

/// The smallest number of milliseconds after which this number of packs is complete.
#[unsafe(no_mangle)]
pub extern "C" fn ribjasper_time_of_packs(packs: u32) -> u64
    ensures { (milliseconds : ℕ) → (result ≤ milliseconds) ↔ (packs ≤ 300 * milliseconds / 1000) }
{
    (1000 * u64::from(packs)).div_ceil(300)
}
