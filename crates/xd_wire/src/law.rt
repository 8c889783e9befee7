// Laws over message files.
ghost use Rattle.std.specs.Prelude.{◌≡◌, ℕ, List, Bool};
ghost use Rattle.xd_frame.specs.Stream.{AreBytes};
ghost use Rattle.xd_wire.specs.inner.Payloads.{ReadsOne};
ghost use Rattle.xd_wire.specs.WireText.{IsWireText};

use xd_frame::messages_are_the_longest;
use xd_value::{fault_law, prefix_law};

/// Each file of messages has a text, and no other, and it has a fault or none.
pub fn a_file_has_one_text()
    ensures some { (bytes : List ℕ) → AreBytes bytes →
        (text : List ℕ) × (faulty : Bool) × IsWireText bytes text faulty }
    ensures one { (bytes a b : List ℕ) (e f : Bool) → IsWireText bytes a e → IsWireText bytes b f →
        (a ≡ b) × (e ≡ f) }
{
    messages_are_the_longest();
    fault_law();
    a_payload_reads_one();
}

/// A payload is read as one value or one fault.
pub(crate) fn a_payload_reads_one()
    ensures { ReadsOne }
{
    fault_law();
    prefix_law();
}
