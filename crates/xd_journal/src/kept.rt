// How much of the output of tests is kept. Choices of this project.

/// Of the output of one test at most 8,192 bytes are kept.
pub const MOST_OF_ONE: u32 = 8_192;

/// Of the output of all tests of a run together at most 67,108,864 bytes are kept.
pub const MOST_OF_ALL: u32 = 67_108_864;
