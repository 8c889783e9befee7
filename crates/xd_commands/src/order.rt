use xd_edge::Indices;

/// What a controller tells a worker. Tests are counted from 0 in the order of their collection.
#[derive(Drop)]
pub enum Order {
    /// To run these tests, after those that it was told before.
    RunTests(Indices),
    /// To run all tests, in order.
    RunAll,
    /// To give back these tests, if it has begun none of them.
    Steal(Indices),
    /// To end after the tests that it was told.
    Shutdown,
}
