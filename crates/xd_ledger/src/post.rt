/// A worker of the rota: the list of what it holds, and whether it was told to shut down.
#[derive(Clone, Copy, Debug)]
pub(crate) struct Post {
    pub(crate) worker: u32,
    pub(crate) chain: u32,
    pub(crate) shut: bool,
}
