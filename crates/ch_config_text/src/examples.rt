ghost use Rattle.ch_config_text.specs.ConfigExamples.{WholeTexts, Faults, Places};

/// What texts say as configurations, the built-in one among them, is what the definitions compute.
pub fn examples_hold()
    ensures whole { WholeTexts }
    ensures faults { Faults }
    ensures places { Places }
{}
