// The entries of the line of orders.

/// An entry of the line of orders: a test, counted from 0 in the order of the suite, or a shutdown mark.
#[derive(Clone, Copy)]
pub enum LineEntry {
    Test(u32),
    Mark,
}

/// Where a test of the suite stands: not in the line, in the queue, or before the queue.
#[derive(Clone, Copy)]
pub enum Standing {
    Free,
    Queued,
    Passed,
}
