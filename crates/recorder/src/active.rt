//! Which threads may have had an event.

ghost use Rattle.std.specs.Prelude.{◌≡◌, ◌≢◌, ◌+◌, ◌<◌, ◌≤◌, [], false, true};
ghost use Rattle.event_costs.specs.declared.numbers.ThreadNo.{ThreadNo as ThreadNoValue};
ghost use Rattle.recorder.specs.inner.Active.{may_have, word_of};

use byte_text::OutOfMemory;
use event_costs::ThreadNo;
use std::alloc::Global;

/// How many threads have their bits in one word.
const GROUP: u32 = 64;

/// How many words there are.
const WORDS: usize = 1024;

/// Which threads may have had an event since their last cut: a bit for each number, so that a cut needn't ask every
/// thread. A thread beyond the bits may have had one.
#[derive(Drop)]
pub struct Active {
    pub words: Vec<u64>,
}

impl Active {
    /// Without bits. It takes no memory.
    pub fn new(alloc: Global) -> Active
        ensures { result.words.items ≡ [] }
    {
        Active {
            words: Vec::new(alloc),
        }
    }

    /// Takes the memory for the bits, if there are none.
    pub fn prepare(&mut self) -> Result<(), OutOfMemory>
        ensures { (other : ThreadNoValue) → may_have self.old.words.items other ≡ true
            → may_have self.new.words.items other ≡ true }
    {
        if self.words.len() == 0 {
            self.words.resize(WORDS, u64::MAX)?;
        }
        Ok(())
    }

    /// Whether the thread may have had an event.
    #[inline(always)]
    pub fn may_have(&self, thread: ThreadNo) -> bool
        ensures { result ≡ may_have self.now.words.items thread }
    {
        (self.word(thread) >> (thread.0 % GROUP)) % 2 == 1
    }

    /// How many threads, from this number on, are seen at once to have had no event.
    pub fn quiet_from(&self, thread: ThreadNo) -> u32
        ensures { (other : ThreadNoValue) → thread.0 ≤ other.0 → other.0 < thread.0 + result
            → may_have self.now.words.items other ≡ false }
    {
        let bit = thread.0 % GROUP;
        if self.word(thread) >> bit != 0 {
            return 0;
        }
        GROUP - bit
    }

    /// The word in which the thread has its bit.
    #[inline(always)]
    fn word(&self, thread: ThreadNo) -> u64
        ensures { result ≡ word_of self.now.words.items thread }
    {
        match self.words.get((thread.0 / GROUP) as usize) {
            Some(word) => *word,
            None => u64::MAX,
        }
    }

    /// Sets the thread's bit. It has a frame of its own, so that an event of the thread that is remembered needs none.
    #[inline(never)]
    pub fn mark(&mut self, thread: ThreadNo)
        ensures own { may_have self.new.words.items thread ≡ true }
        ensures others { (other : ThreadNoValue) → may_have self.old.words.items other ≡ true
            → may_have self.new.words.items other ≡ true }
    {
        if let Some(word) = self.words.get_mut((thread.0 / GROUP) as usize) {
            *word |= 1 << (thread.0 % GROUP);
        }
    }

    /// Clears the thread's bit, where it was cut.
    pub fn clear(&mut self, thread: ThreadNo, is_cut: bool)
        ensures others { (other : ThreadNoValue) → other.0 ≢ thread.0
            → may_have self.new.words.items other ≡ may_have self.old.words.items other }
        ensures kept { is_cut ≡ false → self.new.words.items ≡ self.old.words.items }
    {
        if !is_cut {
            return;
        }
        if let Some(word) = self.words.get_mut((thread.0 / GROUP) as usize) {
            *word &= !(1 << (thread.0 % GROUP));
        }
    }
}
