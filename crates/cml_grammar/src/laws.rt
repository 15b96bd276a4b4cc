//! Laws of the definitions, each the contract of a function that does nothing.
ghost use Rattle.cml_grammar.specs.{ScriptsHaveNoFault, TextsAreOneScript, FaultlessTextsAreScripts, NumbersArePrinted};
ghost use Rattle.cml_grammar.specs.{PrintedNumbersAreRead, WordsMakeLines, NumbersAreTexts};

/// A text that is a script has no fault.
#[tactic(auto, using(crate::proofs::ScriptLemmas::script_without_fault))]
pub fn scripts_have_no_fault()
    ensures { ScriptsHaveNoFault }
{}

/// A text is at most one script.
#[tactic(auto, using(crate::proofs::ScriptLemmas::one_script))]
pub fn texts_are_one_script()
    ensures { TextsAreOneScript }
{}

/// A text without fault is a script.
#[tactic(auto, using(crate::proofs::ScriptLemmas::faultless_script))]
pub fn faultless_texts_are_scripts()
    ensures { FaultlessTextsAreScripts }
{}

/// A number's word is what the number prints as, and the other way round.
#[tactic(auto, using(crate::proofs::NameLemmas::printed_number, crate::proofs::NameLemmas::read_number))]
pub fn numbers_are_as_printed()
    ensures printed { NumbersArePrinted }
    ensures read { PrintedNumbersAreRead }
{}

/// A line's words, with a space between each two, are the line.
pub fn words_make_lines()
    ensures { WordsMakeLines }
{}

/// A script of version 1 whose first line is changed to `cml 2` is one of version 2 with the same declarations, lanes and
/// steps.
#[tactic(auto, using(crate::proofs::VersionLemmas::numbers_are_texts))]
pub fn numbers_are_texts()
    ensures { NumbersAreTexts }
{}
