//! A channel's part of a snapshot (Multiple Channel Read): its enable bit, its word and how far it is.
ghost use Rattle.std.specs.Prelude.{◌≡◌};
ghost use Rattle.parts.specs.Snapshots.{after_reading, cleared, collects, completed, emptied, enabled_as, is_collecting, is_unread, latched_with};

/// How far a channel's part of a snapshot is.
// The word stands beside it and not in Unread: a register shows the word in all three.
#[derive(Clone, Copy, Default, PartialEq, Eq)]
pub enum Progress {
    /// The word has been read, or there is none.
    #[default]
    Read,
    /// A transmission under way will give the word.
    Collecting,
    /// The word waits to be read.
    Unread,
}

/// A channel's part of a snapshot.
#[derive(Clone, Copy, Default)]
pub struct Snapshot {
    pub enabled: bool,
    pub word: u32,
    pub progress: Progress,
}

impl Snapshot {
    /// No snapshot, and none wanted.
    pub fn power_on() -> Snapshot
        ensures { result ≡ emptied }
    {
        Snapshot::default()
    }

    /// A word that is there at once.
    pub fn latch(&mut self, word: u32)
        ensures { self.new ≡ latched_with word self.old }
    {
        self.word = word;
        self.progress = Progress::Unread;
    }

    /// The word will come with the transmission that is under way; the earlier word is shown until then.
    pub fn collect(&mut self)
        ensures { self.new ≡ collects self.old }
    {
        self.progress = Progress::Collecting;
    }

    /// A transmission ended with a word (0 if it was dropped).
    pub fn complete(&mut self, word: u32)
        ensures { self.new ≡ completed word self.old }
    {
        if self.progress == Progress::Collecting {
            self.latch(word);
        }
    }

    /// Neither word nor progress.
    pub fn clear(&mut self)
        ensures { self.new ≡ cleared self.old }
    {
        self.word = 0;
        self.progress = Progress::Read;
    }

    /// Taking the channel out of snapshots clears its part.
    pub fn enable(&mut self, on: bool)
        ensures { self.new ≡ enabled_as on self.old }
    {
        self.enabled = on;
        if !on {
            self.clear();
        }
    }

    /// Shows the word; that makes it read, unless it is still collected.
    pub fn read(&mut self) -> u32
        ensures answer { result ≡ self.old.word }
        ensures after { self.new ≡ after_reading self.old }
    {
        if self.progress == Progress::Unread {
            self.progress = Progress::Read;
        }
        self.word
    }

    pub fn collecting(&self) -> bool
        ensures { result ≡ is_collecting self.now }
    {
        self.progress == Progress::Collecting
    }

    pub fn unread(&self) -> bool
        ensures { result ≡ is_unread self.now }
    {
        self.progress == Progress::Unread
    }
}
