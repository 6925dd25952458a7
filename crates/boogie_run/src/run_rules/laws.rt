//! Laws of runs by rules.

ghost use Rattle.boogie_run.specs.RunRules.Laws.{MachineFollowsRules};

/// Some choices lead the steps of `boogie_run` to the failure of an assertion exactly where some run fails it by the rules.
pub fn machine_follows_rules()
    ensures { MachineFollowsRules }
{}
