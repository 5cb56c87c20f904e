//! Laws of the definitions.
ghost use Rattle.std.specs.Prelude.{◌≡◌, ◌≢◌, ◌≤◌, ◌↔◌, ℕ, List, Some, Ok, Err};
ghost use Rattle.vm_commands.specs.declared.command.Command.{Command};
ghost use Rattle.vm_commands.specs.declared.error.LineFault.TheVariants.{Bad, Size, Memory};
ghost use Rattle.vm_commands.specs.LineGrammar.{IsLine, IsUnreadable, HasNoForm};
ghost use Rattle.vm_commands.specs.Lines.{command_of};
ghost use Rattle.vm_commands.specs.SizeGrammar.{IsSize};
ghost use Rattle.vm_commands.specs.Sizes.{pages_of_size};

/// The function that reads lines gives the command that a line is by the grammar, and no other. It gives a fault exactly where a
/// line has a form whose SIZE or N can't be read, and the other one exactly where a line has no form; want of memory is no meaning.
/// So it is whatever a page is.
pub fn law_lines()
    ensures command { (page : ℕ) (line : List ℕ) (command : Command) → 1 ≤ page → (command_of page line ≡ Ok command) ↔ IsLine page line command }
    ensures size { (page : ℕ) (line : List ℕ) → 1 ≤ page → (command_of page line ≡ Err Size) ↔ IsUnreadable page line }
    ensures bad { (page : ℕ) (line : List ℕ) → 1 ≤ page → (command_of page line ≡ Err Bad) ↔ HasNoForm line }
    ensures no_memory { (page : ℕ) (line : List ℕ) → 1 ≤ page → command_of page line ≢ Err Memory }
{}

/// The function that reads sizes gives the pages of a text that is a size by the grammar, and none of another text: the fewest pages
/// with room for its bytes, of however many KiB.
pub fn law_sizes()
    ensures { (page : ℕ) (text : List ℕ) (pages : ℕ) → 1 ≤ page → (pages_of_size page text ≡ Some pages) ↔ IsSize page text pages }
{}
