ghost use Rattle.std.specs.Prelude.{◌≡◌, Some, None, ◌==◌, if◌then◌else◌};

use super::JunctionSlot;

impl JunctionSlot {
    /// An empty slot.
    #[inline(always)]
    pub fn empty() -> JunctionSlot
        ensures { result ≡ None }
    {
        JunctionSlot { more: 0 }
    }

    /// A slot with a junction. 65535, of which 16 bits have no room for one more, leaves it empty.
    #[inline(always)]
    pub fn with(junction: u16) -> JunctionSlot
        ensures { result ≡ (if junction == 65535 then None else Some junction) }
    {
        if junction == u16::MAX {
            return JunctionSlot::empty();
        }
        JunctionSlot { more: junction + 1 }
    }

    /// The junction; `None` where the slot is empty.
    #[inline(always)]
    pub fn junction(self) -> Option<u16>
        ensures { result ≡ self }
    {
        self.more.checked_sub(1)
    }
}
