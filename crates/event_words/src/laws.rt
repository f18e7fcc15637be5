//! The law of the words, the contract of a call that does nothing.
//!
//! Layer: texts that are read; public. No crate here calls it.
ghost use Rattle.event_words.specs.Words.{AreReadAgain};

/// Exactly the words as they are written are read, each as the one that it is.
pub fn words_are_read_again()
    ensures { AreReadAgain }
{}
