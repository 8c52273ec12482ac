//! No words ask for two things.

ghost use Rattle.command_words.specs.Request.{WordsAskOnce};

/// Words ask for one request at most.
pub fn words_ask_once()
    ensures { WordsAskOnce }
{}
