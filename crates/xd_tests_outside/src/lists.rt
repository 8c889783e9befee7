// Lists of call numbers and of lengths.
ghost use Rattle.std.specs.Prelude.{◌≡◌, ◌<◌, [], All, IfOk};

use std::alloc::Global;
use std::test::Fail;
use xd_edge::Indices;

/// No number.
pub fn none(alloc: Global) -> Indices
    ensures { result ≡ [] }
{
    Indices {
        items: Vec::new(alloc),
    }
}

/// One number alone.
pub fn one(alloc: Global, number: u32) -> Result<Indices, Fail>
    requires { 0 < number }
    ensures { IfOk result (λ l. All (λ n. 0 < n) l) }
{
    let mut items = Vec::new(alloc);
    items.push(number)?;
    Ok(Indices { items })
}
