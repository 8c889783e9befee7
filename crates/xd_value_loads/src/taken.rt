ghost use Rattle.std.specs.Prelude.{◌≡◌};
ghost use Rattle.xd_value.specs.Tree.{trees_depth};
ghost use Rattle.xd_value.specs.View.{views};

use xd_value::Value;

/// Values taken off the stack to be the parts of another.
#[derive(Drop)]
pub struct Taken {
    pub items: Vec<Value>,
    /// How deep the deepest of them nests.
    pub depth: u32,
    ghost measured: { depth ≡ trees_depth (views items.items) },
}
