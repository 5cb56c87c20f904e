// Which words are taken, and what they ask for, by examples.
ghost use Rattle.std.specs.Prelude.{◌∷◌, [], Some, codes, false};
ghost use Rattle.vm_programs.specs.vmtrace.Examples.{AreRefused, AskFor, HaveBadName, usual};

/// Worked examples of words that are taken, with what they ask for. And of words that are refused.
pub fn law_words()
    ensures none { AskFor [] usual }
    ensures least { AskFor (codes "--name=a" ∷ codes "--min=1" ∷ codes "--interval=1" ∷ codes "--quantum=1" ∷ codes "--skip=0"
        ∷ codes "--steps=1" ∷ [])
        (record usual { name = codes "a"; min = Some 1; interval = 1; quantum = 1; steps = 1 }) }
    ensures greatest { AskFor (codes "--name" ∷ codes "web_1.example-com" ∷ codes "--min" ∷ codes "262144"
        ∷ codes "--interval" ∷ codes "1000000000" ∷ codes "--quantum" ∷ codes "65536"
        ∷ codes "--skip" ∷ codes "18446744073709551615" ∷ codes "--steps" ∷ codes "1000000" ∷ codes "--no-code" ∷ [])
        (record usual {
          name = codes "web_1.example-com";
          min = Some 262144;
          interval = 1000000000;
          quantum = 65536;
          skip = 18446744073709551615;
          has_code = false;
        }) }
    ensures file { AskFor (codes "a.log" ∷ []) usual }
    ensures no_code { AskFor (codes "--no-code" ∷ []) (record usual { has_code = false }) }

    // Of the name.
    ensures empty { HaveBadName (codes "--name=" ∷ []) }
    ensures space { HaveBadName (codes "--name=a b" ∷ []) }
    ensures dash { HaveBadName (codes "--name=-a" ∷ []) }
    ensures long { HaveBadName (codes "--name=abcdefghijklmnopqrstuvwxyz0123456" ∷ []) }

    // Of the command line.
    ensures no_pages { AreRefused (codes "--min=0" ∷ []) }
    ensures more_pages { AreRefused (codes "--min=262145" ∷ []) }
    ensures no_lines { AreRefused (codes "--interval=0" ∷ []) }
    ensures more_lines { AreRefused (codes "--interval=1000000001" ∷ []) }
    ensures no_quantum { AreRefused (codes "--quantum=0" ∷ []) }
    ensures more_quantum { AreRefused (codes "--quantum=65537" ∷ []) }
    ensures more_skip { AreRefused (codes "--skip=18446744073709551616" ∷ []) }
    ensures no_steps { AreRefused (codes "--steps=0" ∷ []) }
    ensures more_steps { AreRefused (codes "--steps=1000001" ∷ []) }
    ensures twice { AreRefused (codes "--name=a" ∷ codes "--name=b" ∷ []) }
    ensures code { AreRefused (codes "--code" ∷ []) }
    ensures two_files { AreRefused (codes "a.log" ∷ codes "b.log" ∷ []) }
    ensures help { AreRefused (codes "--help" ∷ []) }
    ensures version { AreRefused (codes "--version" ∷ []) }
{}
