// What is proved of the form alone. The call does nothing, and its contract is the law.
ghost use Rattle.std.specs.Prelude.{◌≡◌, ℕ, List};
ghost use Rattle.xd_journal.specs.declared.journal.Journal.{Journal};
ghost use Rattle.xd_journal_file.specs.FileOf.{IsFileOf, IsBadAt};

/// A file is that of one journal, and it is bad at one message at most.
pub fn file_law()
    ensures one { (i j : Journal) (bytes : List ℕ) → IsFileOf i bytes → IsFileOf j bytes →
        (i.settings ≡ j.settings) × (i.entries.items ≡ j.entries.items) }
    ensures same { (j : Journal) (a b : List ℕ) → IsFileOf j a → IsFileOf j b → a ≡ b }
    ensures first { (n m : ℕ) (bytes : List ℕ) → IsBadAt n bytes → IsBadAt m bytes → n ≡ m }
{}
