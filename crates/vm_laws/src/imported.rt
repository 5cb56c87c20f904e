// The text of an import, as a configuration.
ghost use Rattle.std.specs.Prelude.{ℕ, ◌≤◌, List, [], Some};
ghost use Rattle.vm_import.specs.Guests.{guest_of};
ghost use Rattle.vm_import.specs.Imports.{WritesGuest};
ghost use Rattle.vm_import.specs.Settings.{Settings};
ghost use Rattle.vm_import.specs.declared.outcome.Imported.{Imported};
ghost use Rattle.vm_laws.specs.Meaning.{AreRead, AreSettings, AreWritten, IsImported, IsRead};
ghost use Rattle.vm_import.specs.declared.access.Access.{Access};

/// What `import_log` of `vm_import` writes is a text that `read_config` of `vm_config` accepts.
///
/// Where `import_log` answers `Ok` its clause `guest` says `WritesGuest`. So what a writer that was empty has then is a text that means
/// the configuration of a guest which the log makes, and is no longer than what `vmmem` reads (`written`). `ImportSettings` keeps the
/// ranges of `AreSettings`; its name has to be one that a configuration takes, and `vmtrace` refuses any other.
///
/// The configuration has one guest, of the name that the settings say and as large as what the accesses touch, and a machine with room
/// for it. Each touch that is kept is a step on the page of its rank, which reads one byte or writes the last byte of the interval's
/// number, and idle steps stand between intervals. What the text leaves out is as a configuration has it then. It is the same of the
/// definitions alone (`read`), and each step by itself is read for any accesses that touch at most 262144 pages (`steps`).
pub fn law_imported()
    ensures written { (settings : Settings) (imported : Imported) (log text : List ℕ) → AreSettings settings
        → WritesGuest settings (Some log) (Some []) (Some text) imported → IsImported settings log text }
    ensures read { (settings : Settings) (log : List ℕ) (accesses : List Access)
        → AreSettings settings → AreWritten settings log accesses → IsRead settings accesses }
    ensures steps { (settings : Settings) (accesses : List Access) → (guest_of settings accesses).size ≤ 262144 → AreRead settings accesses }
{}
