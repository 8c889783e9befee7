// Facts about the definitions.
ghost use Rattle.std.specs.Prelude.{◌≡◌, List, None, false};
ghost use Rattle.xd_frame.specs.Message.{MessageView};
ghost use Rattle.xd_factory.specs.Table.{send_refusal};
ghost use Rattle.xd_factory.specs.View.{slot_of_number};
ghost use Rattle.xd_journal.specs.declared.news.What.{What};
ghost use Rattle.xd_gateway.specs.declared.gateway.Gateway.{Gateway};
ghost use Rattle.xd_gateway.specs.News.{Heard, IsNewsOf, all_news};
ghost use Rattle.xd_gateway.specs.Stands.{StandsForHeard};
ghost use Rattle.xd_gateway.specs.Told.{has_last};
ghost use Rattle.xd_gateway.specs.View.{side_of};

use xd_edge::Sink;

/// The messages of a worker's link mean one list of news.
pub fn messages_have_one_meaning()
    ensures { (messages : List MessageView) (a b : List What)
        → IsNewsOf messages a → IsNewsOf messages b → a ≡ b }
{}

/// Until the news of a worker say that it has ended, or that it broke the rules, channel 1 can be sent on.
pub fn a_worker_can_be_told<K: Sink>()
    ensures { (g : Gateway K) (h : List Heard) → StandsForHeard g h → has_last (all_news h) ≡ false
        → send_refusal (slot_of_number (side_of g) 1) ≡ None }
{}
