// The most pages in swap, seen at the ends of boundaries and of epochs, and the pages in swap inside an epoch.
ghost use Rattle.vm_config.specs.declared.config.Config.{Config};
ghost use Rattle.vm_config.specs.Limits.{IsConfig};
ghost use Rattle.vm_guest.specs.Good.{HasNothingPosted, IsGood};
ghost use Rattle.vm_guest.specs.Record.{GuestRecord};
ghost use Rattle.vm_laws.specs.Swapped.{IsMostAtAnEnd, IsMostOfEach, IsNoneExactly};

use vm_guest::law_good;
use vm_runs::law_course;

/// Inside an epoch a guest has never more pages in swap than at one of its ends (`pieces`): as long as it has a spare frame, a touch
/// sends none out, and from then on each page that comes in sends another one out, for no frame comes or goes before the next
/// boundary. So `most_swapped` of a run is 0 exactly where no page was in swap at the end of any boundary, or of any piece of any epoch
/// (`none`), and that of a guest is the most that it had after any of them (`guests`). Of all guests together more may have been in swap
/// at once than the run tells, while one is at its beginning and another is at its end.
pub fn law_swapped()
    ensures pieces { (g : GuestRecord) → IsGood g → HasNothingPosted g → IsMostAtAnEnd g }
    ensures none { (c : Config) → IsConfig c → IsNoneExactly c }
    ensures guests { (c : Config) → IsConfig c → IsMostOfEach c }
{
    law_good();
    law_course();
}
