// Which words are taken, and what they ask for, by examples.
ghost use Rattle.std.specs.Prelude.{◌∷◌, [], None, Some, codes, false, true};
ghost use Rattle.vm_words.specs.Examples.{AreRefused, AreRefusedOfFile, AskFor, AskForFile};

/// Worked examples of words that a small command line takes, with what they ask for: whether the flags `--guests` and `--svg` are
/// given, the text of `--name`, the number of `--workers`, of 1 to 64,
/// and the texts of `--add`, which may be given several times. And of words that it refuses.
pub fn law_words()
    ensures none { AskFor [] false false None None [] }
    ensures flag { AskFor (codes "--svg" ∷ []) false true None None [] }
    ensures other_flag { AskFor (codes "--guests" ∷ []) true false None None [] }
    ensures number { AskFor (codes "--workers=64" ∷ []) false false None (Some 64) [] }
    ensures least { AskFor (codes "--workers" ∷ codes "1" ∷ []) false false None (Some 1) [] }
    ensures text { AskFor (codes "--name" ∷ codes "64" ∷ []) false false (Some (codes "64")) None [] }
    ensures many { AskFor (codes "--workers=+07" ∷ codes "--guests" ∷ codes "--name=a b" ∷ []) true false (Some (codes "a b")) (Some 7) [] }
    ensures added { AskFor (codes "--add=2" ∷ codes "--svg" ∷ codes "--add" ∷ codes "a=1" ∷ codes "--add=2" ∷ []) false true None None
        (codes "2" ∷ codes "a=1" ∷ codes "2" ∷ []) }
    ensures beside { AreRefused (codes "--svg" ∷ codes "--guests" ∷ []) }
    ensures twice { AreRefused (codes "--svg" ∷ codes "--svg" ∷ []) }
    ensures flag_value { AreRefused (codes "--svg=true" ∷ []) }
    ensures text_twice { AreRefused (codes "--name=a" ∷ codes "--name=b" ∷ []) }
    ensures nothing_added { AreRefused (codes "--add" ∷ []) }
    ensures less { AreRefused (codes "--workers=0" ∷ []) }
    ensures more { AreRefused (codes "--workers" ∷ codes "65" ∷ []) }
    ensures no_number { AreRefused (codes "--workers=many" ∷ []) }
    ensures no_value { AreRefused (codes "--name" ∷ []) }
    ensures unknown { AreRefused (codes "--frames=1" ∷ []) }
    ensures stray { AreRefused (codes "svg" ∷ []) }
    ensures help { AreRefused (codes "--help" ∷ []) }
    ensures version { AreRefused (codes "--version" ∷ []) }
{}

/// The same for that command line with a FILE: which file words ask for.
pub fn law_file()
    ensures none { AskForFile [] None }
    ensures alone { AskForFile (codes "a.json" ∷ []) (Some (codes "a.json")) }
    ensures last { AskForFile (codes "--svg" ∷ codes "--workers" ∷ codes "2" ∷ codes "a b" ∷ []) (Some (codes "a b")) }
    ensures first { AskForFile (codes "a.json" ∷ codes "--svg" ∷ []) (Some (codes "a.json")) }
    ensures empty { AskForFile (codes "" ∷ []) (Some (codes "")) }
    ensures dash { AskForFile (codes "-" ∷ []) (Some (codes "-")) }
    ensures escaped { AskForFile (codes "--" ∷ codes "--svg" ∷ []) (Some (codes "--svg")) }
    ensures two { AreRefusedOfFile (codes "a.json" ∷ codes "b.json" ∷ []) }
    ensures unknown { AreRefusedOfFile (codes "a.json" ∷ codes "--frames=1" ∷ []) }
    ensures help { AreRefusedOfFile (codes "a.json" ∷ codes "--help" ∷ []) }
    ensures version { AreRefusedOfFile (codes "a.json" ∷ codes "--version" ∷ []) }
{}
