// The names of guests in a table.
ghost use Rattle.std.specs.Prelude.{◌≡◌, ℕ, List, Ok};
ghost use Rattle.vm_config.specs.declared.config.Config.{Config};
ghost use Rattle.vm_config.specs.Reading.{config_of};
ghost use Rattle.vm_laws.specs.Plain.{HasPlainNames};

/// No name of a guest needs quotes in a comma-separated table (RFC 4180): so it is for each configuration that a text means, whose
/// records of guests have the names as they are.
pub fn law_names()
    ensures { (text : List ℕ) (c : Config) → config_of text ≡ Ok c → HasPlainNames c }
{}
