// Which words are taken, and what they ask for, by examples.
ghost use Rattle.std.specs.Prelude.{◌∷◌, [], codes};
ghost use Rattle.vm_programs.specs.vmlog.Examples.{AreRefused, AskFor};

/// Worked examples of words that are taken, with the samples of an epoch that they ask for, and of words that are refused.
pub fn law_words()
    ensures none { AskFor [] 1 }
    ensures least { AskFor (codes "--every=1" ∷ []) 1 }
    ensures some { AskFor (codes "--every" ∷ codes "6" ∷ []) 6 }
    ensures greatest { AskFor (codes "--every=10000" ∷ []) 10000 }
    ensures no_samples { AreRefused (codes "--every=0" ∷ []) }
    ensures more_samples { AreRefused (codes "--every=10001" ∷ []) }
    ensures no_number { AreRefused (codes "--every=all" ∷ []) }
    ensures no_value { AreRefused (codes "--every" ∷ []) }
    ensures twice { AreRefused (codes "--every=1" ∷ codes "--every=1" ∷ []) }
    ensures other { AreRefused (codes "--csv" ∷ []) }
    ensures file { AskFor (codes "host.log" ∷ []) 1 }
    ensures file_behind { AskFor (codes "--every=6" ∷ codes "host.log" ∷ []) 6 }
    ensures two_files { AreRefused (codes "host.log" ∷ codes "policy" ∷ []) }
    ensures help { AreRefused (codes "--help" ∷ []) }
    ensures version { AreRefused (codes "--version" ∷ []) }
{}
