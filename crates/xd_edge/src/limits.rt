// How much of a suite and of a program's output is taken. Choices of this project.

/// A suite, and so a collection or an order, has at most 50,000 tests.
pub const MAX_TESTS: u32 = 50_000;

/// A suite file has at most 4,194,304 bytes.
pub const MAX_SUITE_BYTES: u64 = 4_194_304;

/// What a test's program prints is read in pieces of at most 4,096 bytes.
pub const MAX_PIECE_BYTES: usize = 4_096;
