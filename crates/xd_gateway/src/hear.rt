// What the messages of a worker's link mean.
ghost use Rattle.std.specs.Prelude.{◌≡◌, ◌||◌, List, IfOk, Some};
ghost use Rattle.xd_value.specs.View.{view};
ghost use Rattle.xd_factory.specs.Trees.{taken_tree};
ghost use Rattle.xd_factory.specs.SideTable.{channel_table};
ghost use Rattle.xd_gateway.specs.News.{close_of, event_or_stray, is_finish, log_hooked, news_by, piece_or_stray};
ghost use Rattle.xd_journal.specs.declared.news.What.TheVariants.{Stray};
ghost use Rattle.xd_gateway.specs.Stands.{IsOfMessage};
ghost use Rattle.xd_gateway.specs.Taking.{IsNamed};

use crate::Gateway;
use crate::side::hook;
use std::alloc::Global;
use xd_channel::End;
use xd_commands::value_event;
use xd_edge::{OutOfMemory, Sink};
use xd_factory::{Side, SideFault, Taken};
use xd_frame::Message;
use xd_journal::What;
use xd_value::Value;

impl<K: Sink> Gateway<K> {
    ghost use Rattle.xd_gateway.specs.News.{Heard};
    ghost use Rattle.xd_gateway.specs.Stands.{HearsMore, StandsForHeard};
    ghost use Rattle.xd_gateway.specs.View.{KeepsLine, channels_of, has_finished};

    /// Takes a message of a worker, and gives the news that it means; `None` where it means none. A message that the side
    /// refuses is stray.
    pub fn hear(&mut self, message: Message) -> Result<Option<What>, OutOfMemory>
        ensures hears { (h : List Heard) → StandsForHeard self.old h →
            IfOk result (HearsMore self.new h message) }
        ensures kind { IfOk result IsOfMessage }
        ensures line { KeepsLine self.old self.new }
    {
        match self.take(message) {
            Ok(taken) => {
                let news = self.heed(taken)?;
                Ok(news)
            }
            Err(fault) => refused_news(fault),
        }
    }

    // A message that was taken: a log gets its callback, and that the worker has finished is kept.
    fn heed(&mut self, taken: Taken) -> Result<Option<What>, OutOfMemory>
        ensures news { IfOk result (λ news.
            news ≡ news_by (has_finished self.old) (taken_tree taken)) }
        ensures kind { IfOk result IsOfMessage }
        ensures channels { IfOk result (λ news.
            channels_of self.new ≡ log_hooked news (channels_of self.old)) }
        ensures finished { IfOk result (λ news.
            has_finished self.new ≡ (has_finished self.old || is_finish news)) }
        ensures line { KeepsLine self.old self.new }
    {
        let news = news_of(self.alloc, self.has_finished, taken)?;
        hook_log(&mut self.side, &news);
        self.has_finished = self.has_finished || is_finish(&news);
        Ok(news)
    }
}

// The news of a message that was refused. Running out of memory is no news.
fn refused_news(fault: SideFault) -> Result<Option<What>, OutOfMemory>
    ensures news { IfOk result (λ news. (news ≡ Some Stray) × IsNamed fault) }
    ensures kind { IfOk result IsOfMessage }
{
    match fault {
        SideFault::OutOfMemory => Err(OutOfMemory),
        _ => Ok(Some(What::Stray)),
    }
}

// The news of a message that was taken.
fn news_of(alloc: Global, has_finished: bool, taken: Taken) -> Result<Option<What>, OutOfMemory>
    ensures news { IfOk result (λ news. news ≡ news_by has_finished (taken_tree taken)) }
    ensures kind { IfOk result IsOfMessage }
{
    match taken {
        Taken::Handed(1, value) => {
            let event = event_or_stray(alloc, &value)?;
            Ok(Some(event))
        }
        Taken::Handed(log, value) => Ok(Some(piece_or_stray(log, value))),
        Taken::EndHanded(1, end) => Ok(close_of(has_finished, end)),
        Taken::EndHanded(log, _) => Ok(Some(What::LogClosed { log })),
        _ => Ok(Some(What::Stray)),
    }
}

// The event that an item on channel 1 is.
fn event_or_stray(alloc: Global, value: &Value) -> Result<What, OutOfMemory>
    ensures event { IfOk result (λ what. what ≡ event_or_stray (view value.now)) }
    ensures kind { IfOk result (λ what. IsOfMessage (Some what)) }
{
    let event = value_event(alloc, value)?;
    match event {
        Some(what) => Ok(what),
        None => Ok(What::Stray),
    }
}

// What an item on the channel of a log means.
fn piece_or_stray(log: u32, value: Value) -> What
    ensures piece { result ≡ piece_or_stray log (view value) }
    ensures kind { IsOfMessage (Some result) }
{
    match value {
        Value::Bytes(bytes) => What::Piece { log, bytes },
        _ => What::Stray,
    }
}

// What an end of channel 1 means.
fn close_of(has_finished: bool, end: End) -> Option<What>
    ensures close { result ≡ close_of has_finished end }
    ensures kind { IsOfMessage result }
{
    match end {
        End::LastMessage | End::Lost => Some(What::Stray),
        End::Closed | End::Error(_) if has_finished => None,
        End::Closed => Some(What::Closed(None)),
        End::Error(text) => Some(What::Closed(Some(text))),
    }
}

// What comes on the channel of a log is handed out.
fn hook_log(side: &mut Side, news: &Option<What>)
    ensures { channel_table side.new ≡ log_hooked news.now (channel_table side.old) }
{
    if let Some(What::LogStart { log, .. }) = news {
        if *log % 2 == 0 {
            hook(side, *log);
        }
    }
}

fn is_finish(news: &Option<What>) -> bool
    ensures { result ≡ is_finish news.now }
{
    matches!(news, Some(What::Finished))
}
