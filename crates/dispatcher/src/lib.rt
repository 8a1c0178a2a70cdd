// The claim about any list of calls of a dispatcher, whose code is that of `pages`, `set_changes` and `set_questions`.

#![tactic(auto)]
