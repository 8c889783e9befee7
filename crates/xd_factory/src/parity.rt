/// Which numbers a side gives to the channels that it opens.
#[derive(Clone, Copy, Debug, PartialEq, Eq)]
pub enum Parity {
    /// 1, 3, 5 and so on: the side that started the link.
    Odd,
    /// 2, 4, 6 and so on.
    Even,
}
