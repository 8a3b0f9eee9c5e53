//! The lines and the statuses of refusals that no input brings about.
ghost use Rattle.std.specs.Prelude.{◌≡◌, codes};
ghost use Rattle.asm_journal.specs.declared.error.JournalError.TheVariants as journal;
ghost use Rattle.asm_play.specs.declared.outcome.RunError.TheVariants as run;
ghost use Rattle.asm_driver.specs.Refusal.{refusal_line, refusal_status, refusal_of_input, refusal_of_journal};
ghost use Rattle.asm_driver.specs.Refusal.{refusal_of_run, refusal_of_script};
ghost use Rattle.asm_driver.specs.Report.{line};
ghost use Rattle.asm_driver.specs.declared.ports.input.InputError.TheVariants as input;
ghost use Rattle.asm_driver.specs.declared.program.refusal.Refusal.TheVariants as refusal;
ghost use Rattle.asm_script.specs.declared.script.ScriptError.TheVariants as script;

// Does nothing; its contract states the line and the status of errors that no input causes.
fn rare_refusals()
    ensures missing { refusal_line (refusal_of_run (run.Missing 7)) ≡ line (codes "missing move 7") }
    ensures last_missing { refusal_line (refusal_of_run (run.Missing 4294967295))
        ≡ line (codes "missing move 4294967295") }
    ensures missing_status { refusal_status (refusal_of_run (run.Missing 7)) ≡ 1 }

    ensures capacity { refusal_line (refusal_of_run run.BadCapacity) ≡ line (codes "bad words") }
    ensures capacity_status { refusal_status (refusal_of_run run.BadCapacity) ≡ 2 }

    ensures thread { refusal_line (refusal_of_run run.NoThread) ≡ line (codes "no thread") }
    ensures thread_status { refusal_status (refusal_of_run run.NoThread) ≡ 3 }

    ensures unfit { refusal_line refusal.Unfit ≡ line (codes "bad script: shape") }
    ensures unfit_status { refusal_status refusal.Unfit ≡ 2 }

    ensures late_line { refusal_line (refusal_of_journal (journal.NotJson 4294967296))
        ≡ line (codes "journal line 4294967296: not JSON") }
    ensures late_line_status { refusal_status (refusal_of_journal (journal.NotJson 4294967296)) ≡ 2 }

    ensures memory { refusal_line refusal.Memory ≡ line (codes "out of memory") }
    ensures memory_status { refusal_status refusal.Memory ≡ 3 }
    ensures memory_of_input { refusal_of_input input.Memory ≡ refusal.Memory }
    ensures memory_of_script { refusal_of_script script.Memory ≡ refusal.Memory }
    ensures memory_of_run { refusal_of_run run.Memory ≡ refusal.Memory }
    ensures memory_of_journal { refusal_of_journal journal.Memory ≡ refusal.Memory }
{}

#[test]
fn what_no_input_brings_about_is_refused_too(_rt: HostRuntime) {
    rare_refusals();
}
