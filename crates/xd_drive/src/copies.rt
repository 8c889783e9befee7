// Copies of news and orders.
ghost use Rattle.std.specs.Prelude.{◌≡◌, IfOk, true};
ghost use Rattle.xd_drive.specs.Calls.{is_order};

use std::alloc::Global;
use xd_edge::{OutOfMemory, Text, copy_indices, copy_texts};
use xd_journal::{Entry, News, What};

fn copy_text(text: &Option<Text>) -> Result<Option<Text>, OutOfMemory>
    ensures { IfOk result (λ copy. copy ≡ text.now) }
{
    match text {
        Some(text) => {
            let text = text.copy()?;
            Ok(Some(text))
        }
        None => Ok(None),
    }
}

fn copy_what(alloc: Global, what: &What) -> Result<What, OutOfMemory>
    ensures { IfOk result (λ copy. copy ≡ what.now) }
{
    match what {
        What::Ready => Ok(What::Ready),
        What::Collected(ids) => {
            let ids = copy_texts(alloc, &ids.items)?;
            Ok(What::Collected(ids))
        }
        What::LogStart { index, log } => Ok(What::LogStart {
            index: *index,
            log: *log,
        }),
        What::Piece { log, bytes } => {
            let bytes = bytes.copy()?;
            Ok(What::Piece { log: *log, bytes })
        }
        What::LogClosed { log } => Ok(What::LogClosed { log: *log }),
        What::Done { index, outcome, ms } => Ok(What::Done {
            index: *index,
            outcome: *outcome,
            ms: *ms,
        }),
        What::Back(indices) => {
            let indices = copy_indices(alloc, &indices.items)?;
            Ok(What::Back(indices))
        }
        What::Finished => Ok(What::Finished),
        What::Closed(text) => {
            let text = copy_text(text)?;
            Ok(What::Closed(text))
        }
        What::Stray => Ok(What::Stray),
        What::Gone(cause) => Ok(What::Gone(*cause)),
        What::NotStarted => Ok(What::NotStarted),
    }
}

/// The same piece of news again.
pub(crate) fn copy_news(alloc: Global, news: &News) -> Result<News, OutOfMemory>
    ensures { IfOk result (λ copy. copy ≡ news.now) }
{
    let what = copy_what(alloc, &news.what)?;
    Ok(News {
        worker: news.worker,
        what,
    })
}

/// The same order again.
pub(crate) fn copy_order(alloc: Global, worker: u32, order: &Entry) -> Result<Entry, OutOfMemory>
    requires { is_order worker order.now ≡ true }
    ensures { IfOk result (λ copy. copy ≡ order.now) }
{
    match order {
        Entry::Run { worker, indices } => {
            let indices = copy_indices(alloc, &indices.items)?;
            Ok(Entry::Run {
                worker: *worker,
                indices,
            })
        }
        Entry::RunAll { worker } => Ok(Entry::RunAll { worker: *worker }),
        Entry::Steal { worker, indices } => {
            let indices = copy_indices(alloc, &indices.items)?;
            Ok(Entry::Steal {
                worker: *worker,
                indices,
            })
        }
        _ => Ok(Entry::Shutdown { worker }),
    }
}
