// Which words are taken, and what they ask for, by examples.
ghost use Rattle.std.specs.Prelude.{◌∷◌, [], codes};
ghost use Rattle.vm_programs.specs.vmcheck.Examples.{AreRefused, AskFor, configuration, policy};

/// Worked examples of words that are taken, with what they ask for, and of words that are refused.
pub fn law_words()
    ensures none { AskFor [] configuration }
    ensures file { AskFor (codes "a.json" ∷ []) configuration }
    ensures standard { AskFor (codes "-" ∷ []) configuration }
    ensures policy { AskFor (codes "--policy" ∷ []) policy }
    ensures policy_of_file { AskFor (codes "--policy" ∷ codes "a.json" ∷ []) policy }
    ensures policy_behind { AskFor (codes "a.json" ∷ codes "--policy" ∷ []) policy }
    ensures file_of_that_name { AskFor (codes "--" ∷ codes "--policy" ∷ []) configuration }
    ensures twice { AreRefused (codes "--policy" ∷ codes "--policy" ∷ []) }
    ensures value { AreRefused (codes "--policy=a.json" ∷ []) }
    ensures two_files { AreRefused (codes "a.json" ∷ codes "b.json" ∷ []) }
    ensures other { AreRefused (codes "--svg" ∷ []) }
    ensures help { AreRefused (codes "--help" ∷ []) }
    ensures version { AreRefused (codes "--version" ∷ []) }
{}
