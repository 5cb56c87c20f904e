// Which words are taken, and what they ask for, by examples.
ghost use Rattle.std.specs.Prelude.{◌∷◌, [], codes};
ghost use Rattle.vm_programs.specs.vmsteer.Examples.{AreRefused, AskFor, drawing, orders, table};

/// Worked examples of words that are taken, with what they ask for, and of words that are refused.
pub fn law_words()
    ensures none { AskFor [] orders }
    ensures csv { AskFor (codes "--csv" ∷ []) table }
    ensures svg { AskFor (codes "--svg" ∷ []) drawing }
    ensures both { AreRefused (codes "--csv" ∷ codes "--svg" ∷ []) }
    ensures both_ways { AreRefused (codes "--svg" ∷ codes "--csv" ∷ []) }
    ensures twice { AreRefused (codes "--csv" ∷ codes "--csv" ∷ []) }
    ensures value { AreRefused (codes "--csv=true" ∷ []) }
    ensures other { AreRefused (codes "--workers=1" ∷ []) }
    ensures file { AskFor (codes "host.log" ∷ []) orders }
    ensures file_drawn { AskFor (codes "--svg" ∷ codes "host.log" ∷ []) drawing }
    ensures two_files { AreRefused (codes "host.log" ∷ codes "policy" ∷ []) }
    ensures help { AreRefused (codes "--help" ∷ []) }
    ensures version { AreRefused (codes "--version" ∷ []) }
{}
