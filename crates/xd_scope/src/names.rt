// The scope of a test, by its id.
ghost use Rattle.std.specs.Prelude.{◌≡◌, true};
ghost use Rattle.std.specs.Str.{chars};
ghost use Rattle.xd_run.specs.Plan.{is_scope};
ghost use Rattle.xd_run.specs.Scopes.{before_first, before_last, group_in, scope_of};

use xd_edge::ModeKind;

// What stands before the first "::", or all.
fn before_first(id: &str) -> &str
    ensures { chars result.now ≡ before_first (chars id.now) }
{
    match id.split_once("::") {
        Some((front, _)) => front,
        None => id,
    }
}

// What stands before the last "::", or all.
fn before_last(id: &str) -> &str
    ensures { chars result.now ≡ before_last (chars id.now) }
{
    match id.rsplit_once("::") {
        Some((front, _)) => front,
        None => id,
    }
}

// What stands after the last '@' where no ']' stands after it, else all.
fn group(id: &str) -> &str
    ensures { chars result.now ≡ group_in (chars id.now) (chars id.now) }
{
    match id.rsplit_once('@') {
        Some((_, after)) => { if after.contains(']') { id } else { after } }
        None => id,
    }
}

/// The scope of the test with this id: in mode loadscope what stands before the id's last `::`, in mode loadfile what
/// stands before its first `::`, in mode loadgroup what stands after its last `@` where no `]` stands after that, and
/// the whole id where there is no such place.
pub fn scope_of(kind: ModeKind, id: &str) -> &str
    requires { is_scope kind ≡ true }
    ensures { chars result.now ≡ scope_of kind (chars id.now) }
{
    match kind {
        ModeKind::LoadScope => before_last(id),
        ModeKind::LoadFile => before_first(id),
        ModeKind::LoadGroup => group(id),
        ModeKind::Local | ModeKind::Each | ModeKind::Load | ModeKind::WorkSteal => unreachable!(),
    }
}
