// What the session keeps of a run beside its mode.
ghost use Rattle.std.specs.Prelude.{◌≡◌, ◌&&◌, true, nat_le, length};
ghost use Rattle.std.specs.List.{list_all};
ghost use Rattle.xd_edge.specs.Limits.{most_tests};
ghost use Rattle.xd_edge.specs.Ids.{is_id};
ghost use Rattle.xd_run.specs.Proper.{most_workers, no_text_twice};

use xd_books::Books;
use xd_ledger::Ledger;

/// The books of the run, and where its tests stand. There are no more workers and tests than a run may have, and each
/// collection is in order.
#[derive(Drop)]
pub struct RunBooks {
    pub kept: Books,
    pub ledger: Ledger,
    ghost few: { list_all (λ l. nat_le (length l.ids) most_tests) kept.lists ≡ true },
    ghost few_workers: { nat_le kept.settings.workers most_workers ≡ true },
    ghost ordered: { list_all
        (λ l. list_all is_id l.ids && no_text_twice l.ids) kept.lists ≡ true },
}
