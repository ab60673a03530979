// Further worked bytes, beside the starred rows of document 01: one theorem of computed rows, for what only the
// constants of the definitions say. Nothing here runs.
#![tactic(auto)]
