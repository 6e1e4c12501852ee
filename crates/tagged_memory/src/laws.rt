//! What holds of every memory: each function's contract is a law, and its body is empty.

ghost use Rattle.tagged_memory.specs.Memory.{StoredIsLoaded};

/// A word that is stored with its tag, at a multiple of 16 in RAM, is loaded again with its tag.
pub fn stored_words_are_loaded_again()
    ensures { StoredIsLoaded }
{}
