//! The fields of a file, read where they lie.
ghost use Rattle.std.specs.Prelude.{◌≡◌, slice_index};
ghost use Rattle.map_file.specs.Layout.{field, junction_count, road_count};

/// The 16-bit field at an offset, low byte first; bytes past the end count as 0.
pub fn read_field(bytes: &[u8], at: u32) -> u16
    ensures { result ≡ field bytes.now at }
{
    let at = at as usize;
    u16::from_le_bytes([read_byte(bytes, at), read_byte(bytes, at + 1)])
}

/// The byte at an offset; 0 past the end.
pub fn read_byte(bytes: &[u8], at: usize) -> u8
    ensures { result ≡ slice_index bytes.now at }
{
    bytes.get(at).copied().unwrap_or(0)
}

/// How many junctions a file has.
pub fn junction_count(bytes: &[u8]) -> u32
    ensures { result ≡ junction_count bytes.now }
{
    u32::from(read_field(bytes, 0))
}

/// How many roads a file has.
pub fn road_count(bytes: &[u8]) -> u32
    ensures { result ≡ road_count bytes.now }
{
    u32::from(read_field(bytes, 2))
}
