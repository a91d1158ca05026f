/// An arc from place to place: a road by its number, or with number 0 a shortcut.
// Kept: `road` is a plain number, as in the lent way lists, where 0 is no road, a rule of the project.
#[derive(Clone, Copy, PartialEq, Eq, Debug)]
pub struct Arc {
    pub tail: u32,
    pub head: u32,
    pub road: u32,
}

/// An arc with what it costs.
#[derive(Clone, Copy, PartialEq, Eq, Debug)]
pub struct ChargedArc<C> {
    pub arc: Arc,
    pub charge: C,
}
