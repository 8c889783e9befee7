// Taking from a mailbox.
ghost use Rattle.std.specs.Prelude.{◌≡◌};
ghost use Rattle.xd_post.specs.Post.{ring_of_inbox};

use std::sync::Wait;
use xd_post::{Bell, Inbox};

/// Takes the next item, and sleeps on the bell until there is one.
pub fn next_item<T: Drop, R: Wait>(rt: &R, bell: &Bell, inbox: &mut Inbox<T>) -> T
    ensures { ring_of_inbox inbox.new ≡ ring_of_inbox inbox.old }
{
    for _ in rt.forever() {
        let seen = bell.count(rt);
        if let Some(item) = inbox.take() {
            return item;
        }
        bell.wait_past(rt, seen);
    }
    unreachable!()
}
