// Closings of their own over any roads below.
use super::table::Table;

/// Roads below, with up to 32 more closings. The own closings are the numbers of the table that are roads below.
#[derive(Drop)]
pub struct ClosingsLayer<B> {
    below: B,
    table: Table,
}

mod closing;
mod reading;
