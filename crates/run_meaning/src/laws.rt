//! Laws: what holds of every run.
ghost use Rattle.run_meaning.specs.Laws.{CallsBringBack, CommandsClose, LoopsBringBack, RedirectionsEnd, ScriptsBringBack};
ghost use Rattle.run_meaning.specs.Laws.{NamesAskedDetermine, NamesAskedDetermineScripts, RunUnfolds, RunsKeep};
ghost use Rattle.run_meaning.specs.Laws.{ScriptsKeep, StepsSuffice, StepsSufficeForScripts};
ghost use Rattle.run_meaning.specs.Laws.{SubshellsBringBack, SubstitutionsBringBack, WholeScriptsClose};

/// Two hosts that know the same of the names that a run asked for give the same run.
pub fn names_asked_determine_the_run()
    ensures { NamesAskedDetermine }
{}

/// Where enough steps are left, more change nothing.
pub fn steps_suffice()
    ensures { StepsSuffice }
{}

/// A run is one command, with runs of the same number inside.
pub fn runs_unfold()
    ensures { RunUnfolds }
{}

/// A run gives no step back and loses no name that was asked.
pub fn runs_keep_steps_and_names()
    ensures { RunsKeep }
{}

/// Two hosts that know the same of the names that a script asked for give the same run of the whole script.
pub fn names_asked_determine_a_script()
    ensures { NamesAskedDetermineScripts }
{}

/// Where enough steps are left for a script, more change nothing.
pub fn steps_suffice_for_a_script()
    ensures { StepsSufficeForScripts }
{}

/// A script gives no step back and loses no name that was asked.
pub fn a_script_keeps_steps_and_names()
    ensures { ScriptsKeep }
{}

/// At the end of a command its frames, its redirections and all else that it opened are closed, and nothing else is.
pub fn commands_close()
    ensures { CommandsClose }
{}

/// So is all that a script opened, at its end.
pub fn whole_scripts_close()
    ensures { WholeScriptsClose }
{}

/// A subshell ends any jump and leaves its status, what it put to the captures outside of it, the reads, the names asked
/// and the steps. All else is what it was.
pub fn subshells_bring_back()
    ensures { SubshellsBringBack }
{}

/// So does a command substitution; its status is kept for a command that has no words.
pub fn substitutions_bring_back()
    ensures { SubstitutionsBringBack }
{}

/// After a call the arguments, the loops that can be left and what is open are what they were, and no jump is on its way.
pub fn calls_bring_back()
    ensures { CallsBringBack }
{}

/// After a script of the host the loops that can be left and what is open are what they were.
pub fn scripts_bring_back()
    ensures { ScriptsBringBack }
{}

/// After redirections the outputs and what is open are what they were.
pub fn redirections_end()
    ensures { RedirectionsEnd }
{}

/// After a loop the loops that can be left are what they were.
pub fn loops_bring_back()
    ensures { LoopsBringBack }
{}
