//! Nested cells, and the search graph over them.
#![tactic(auto)]

ghost use Rattle.std.specs.Prelude.{◌≡◌, ◌-◌, ◌*◌, ◌/◌, ◌^◌};

/// The cell of a level in which a junction with this code lies.
pub fn cell_of(code: u16, level: u8) -> u16
    ensures { result ≡ code / 16 ^ (level - 1) }
{
    code.checked_shr(bits_below(level)).unwrap_or(0)
}

// How many bits of a code lie below its cell of a level.
fn bits_below(level: u8) -> u32
    ensures { result ≡ 4 * (level - 1) }
{
    4 * u32::from(level.saturating_sub(1))
}
