//! Laws of the reader: it gives whatever the grammar has within the limits, and nothing else. So no text is two scripts.
//!
//! A function of this file has an empty body: its contract is the law.

ghost use Rattle.tree_reading.specs.Laws.{EachTextHasOneTree, EachTextIsOneScript, MixedChoiceHasNoTree, NoDotBehindQuestion, ChainOfParallelsHasNoTree, HidingBesideChoiceHasNoTree, NoBracketBeyondTheLimit, NoEmptySetBeyondTheLimit, ReadTreesAreTrees, ReaderGivesTrees, ReaderIsComplete, ReaderIsSound, ScriptsSettle, SettledNothingIsNone, SettledScriptIsOne};

/// No list of tokens is two scripts, and none has two trees.
pub fn each_text_is_one_script()
    ensures scripts { EachTextIsOneScript }
    ensures trees { EachTextHasOneTree }
{}

/// The reader gives whatever the grammar has within the limits.
pub fn reader_is_complete()
    ensures scripts { ReaderIsComplete }
    ensures trees { ReaderGivesTrees }
{}

/// The reader gives nothing but what the grammar has within the limits.
pub fn reader_is_sound()
    ensures scripts { ReaderIsSound }
    ensures trees { ReadTreesAreTrees }
{}

/// A text is the script that its reading settles on, and none where that settles on nothing.
pub fn settled_reading_decides()
    ensures script { SettledScriptIsOne }
    ensures nothing { SettledNothingIsNone }
    ensures settles { ScriptsSettle }
{}

/// Texts that have no tree.
pub fn refused_texts()
    ensures mixed_choice { MixedChoiceHasNoTree }
    ensures dot_behind_question { NoDotBehindQuestion }
    ensures parallels { ChainOfParallelsHasNoTree }
    ensures hiding { HidingBesideChoiceHasNoTree }
    ensures bracket { NoBracketBeyondTheLimit }
    ensures empty_set { NoEmptySetBeyondTheLimit }
{}
