ghost use Rattle.std.specs.Prelude.{◌≡◌, MatchResult};
ghost use Rattle.map_file.specs.Chains.{open_fault};
ghost use Rattle.chained_map.specs.Opened.{told};

use super::{ChainedMap, RefusedMap};
use map_file::check_map;

impl ChainedMap {
    /// Opens a map file, or hands its bytes back with the first fault.
    pub fn open(bytes: Vec<u8>) -> Result<ChainedMap, RefusedMap>
        ensures told { told result ≡ open_fault bytes.items }
        ensures kept { MatchResult result (λ x. x.bytes ≡ bytes) (λ e. e.bytes ≡ bytes) }
    {
        match check_map(&bytes) {
            Ok(tails) => Ok(ChainedMap { bytes, tails }),
            Err(fault) => Err(RefusedMap { fault, bytes }),
        }
    }

    /// The bytes, handed back.
    pub fn into_bytes(self) -> Vec<u8>
        ensures { result ≡ self.bytes }
    {
        let ChainedMap { bytes, tails: _ } = self;
        bytes
    }
}
