/// What is known of one road: its ends, its measures, its limit in hundreds of kilograms, and whether it is open.
#[derive(Clone, Copy, PartialEq, Eq, Debug)]
pub struct Facts {
    pub tail: u32,
    pub head: u32,
    pub seconds: u16,
    pub metres: u16,
    pub limit: u16,
    pub open: bool,
}
