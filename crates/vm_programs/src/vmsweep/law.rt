// Which words are taken, and what they ask for, by examples.
ghost use Rattle.std.specs.Prelude.{◌∷◌, [], None, Some, codes, false, true};
ghost use Rattle.vm_lists.specs.declared.faults.ListFaultKind.TheVariants.{EndsBelow, NoItem, NoStep, OutsideRange};
ghost use Rattle.vm_lists.specs.declared.faults.NameFaultKind.TheVariants.{NoName, Twice};
ghost use Rattle.vm_lists.specs.declared.faults.NamedListFaultKind.TheVariants.{BadList as BadValues, NoEquals};
ghost use Rattle.vm_programs.specs.declared.vmsweep.asked.Form.TheVariants.{Drawing, Guests, Table};
ghost use Rattle.vm_programs.specs.declared.vmsweep.faults.SweepFault.TheVariants.{BadList, BadName, BadNamedList, NotRising, OneMachine, TooMany, TooManyCurves, TooManyLists, TooManyOfAll, TooManyOfFour, TooManyRuns};
ghost use Rattle.vm_programs.specs.declared.vmsweep.keys.SweptKey.TheVariants.{Frames, Min, MinPercent, PageRate, Rebalance, Shares, Swap, Tax};
ghost use Rattle.vm_programs.specs.vmsweep.Examples.{AreRefused, AreRefusedFor, AskFor, no_lists, of_guest};
ghost use Rattle.vm_programs.specs.vmsweep.Keys.{limits_of};

/// Worked examples of words that are taken, with what they ask for: the values of the lists and the number of seeds, what is written, whether
/// `--progress` is given, and the number of threads. And of words that are refused, with their first fault.
pub fn law_words()
    ensures none { AskFor [] no_lists Table false 1 }
    ensures lists { AskFor (codes "--frames" ∷ codes "192,224..256/16" ∷ codes "--tax" ∷ codes "0,75" ∷ codes "--workers=4" ∷ [])
        (record no_lists { frames = Some (192 ∷ 224 ∷ 240 ∷ 256 ∷ []); tax = Some (0 ∷ 7500 ∷ []) }) Table false 4 }
    ensures guests { AskFor (codes "--progress" ∷ codes "--page-rate=256" ∷ codes "--guests" ∷ codes "--swap=0" ∷ [])
        (record no_lists { swap = Some (0 ∷ []); page_rate = Some (256 ∷ []) }) Guests true 1 }
    ensures rebalance { AskFor (codes "--rebalance" ∷ codes "0..64/32,262144" ∷ [])
        (record no_lists { rebalance = Some (0 ∷ 32 ∷ 64 ∷ 262144 ∷ []) }) Table false 1 }
    ensures file { AskFor (codes "--tax=0" ∷ codes "a.json" ∷ []) (record no_lists { tax = Some (0 ∷ []) }) Table false 1 }
    ensures drawing { AskFor (codes "--svg" ∷ codes "--frames=8,16" ∷ codes "--tax" ∷ codes "0.25,99.99" ∷ [])
        (record no_lists { frames = Some (8 ∷ 16 ∷ []); tax = Some (25 ∷ 9999 ∷ []) }) Drawing false 1 }

    ensures percents { AskFor (codes "--min-percent=33,50..70/10" ∷ [])
        (record no_lists { min_percent = Some (33 ∷ 50 ∷ 60 ∷ 70 ∷ []) }) Table false 1 }
    ensures guest_lists { AskFor (codes "--min=web=8..16/4" ∷ codes "--shares" ∷ codes "db=1,2000" ∷ codes "--seeds=3" ∷ codes "--min"
        ∷ codes "db=4" ∷ []) (record no_lists {
          minimums = of_guest (codes "web") (8 ∷ 12 ∷ 16 ∷ []) ∷ of_guest (codes "db") (4 ∷ []) ∷ [];
          shares = of_guest (codes "db") (1 ∷ 2000 ∷ []) ∷ [];
          seeds = Some 3;
        }) Table false 1 }
    ensures seeded_drawing { AskFor (codes "--svg" ∷ codes "--frames=8,16" ∷ codes "--seeds=1000" ∷ codes "--min-percent=50" ∷ [])
        (record no_lists { frames = Some (8 ∷ 16 ∷ []); min_percent = Some (50 ∷ []); seeds = Some 1000 }) Drawing false 1 }

    // Of a list, the byte where it is wrong.
    ensures outside { AreRefusedFor (codes "--frames" ∷ codes "0" ∷ [])
        (BadList Frames (record { at = 0; kind = OutsideRange (limits_of Frames) })) }
    ensures no_number { AreRefusedFor (codes "--tax" ∷ codes "5,99.991" ∷ []) (BadList Tax (record { at = 2; kind = NoItem })) }
    ensures ends_below { AreRefusedFor (codes "--frames" ∷ codes "2..1" ∷ []) (BadList Frames (record { at = 3; kind = EndsBelow })) }
    ensures no_step { AreRefusedFor (codes "--swap=1..2/0" ∷ []) (BadList Swap (record { at = 5; kind = NoStep })) }
    ensures in_order { AreRefusedFor (codes "--page-rate=257" ∷ codes "--tax=" ∷ []) (BadList Tax (record { at = 0; kind = NoItem })) }

    ensures too_far { AreRefusedFor (codes "--rebalance=0,262145" ∷ [])
        (BadList Rebalance (record { at = 2; kind = OutsideRange (limits_of Rebalance) })) }

    // Of a list with a name, with the bytes of the name and its sign.
    ensures no_percent { AreRefusedFor (codes "--min-percent=0" ∷ [])
        (BadList MinPercent (record { at = 0; kind = OutsideRange (limits_of MinPercent) })) }
    ensures no_page { AreRefusedFor (codes "--min=web=1,0" ∷ [])
        (BadNamedList Min (record { at = 6; kind = BadValues (OutsideRange (limits_of Min)) })) }
    ensures no_equals { AreRefusedFor (codes "--shares=web" ∷ []) (BadNamedList Shares (record { at = 3; kind = NoEquals })) }
    ensures lists_first { AreRefusedFor (codes "--shares=b=x" ∷ codes "--min==1" ∷ [])
        (BadNamedList Shares (record { at = 2; kind = BadValues NoItem })) }

    // Of the names.
    ensures no_name { AreRefusedFor (codes "--min==1" ∷ []) (BadName Min (record { place = 0; kind = NoName })) }
    ensures named_twice { AreRefusedFor (codes "--min=web=1" ∷ codes "--shares=web=1" ∷ codes "--min=web=2" ∷ [])
        (BadName Min (record { place = 1; kind = Twice })) }

    // Of the lists together.
    ensures too_many_lists { AreRefusedFor (codes "--min=a=1" ∷ codes "--min=b=1" ∷ codes "--min=c=1" ∷ codes "--min=d=1" ∷ codes "--min=e=1"
        ∷ codes "--shares=a=1" ∷ codes "--shares=b=1" ∷ codes "--shares=c=1" ∷ codes "--shares=d=1" ∷ []) TooManyLists }
    ensures too_many_runs { AreRefusedFor (codes "--frames=1..101" ∷ codes "--seeds=100" ∷ []) TooManyRuns }
    ensures too_many_of_all { AreRefusedFor (codes "--svg" ∷ codes "--frames=8,9" ∷ codes "--min-percent=1..13" ∷ []) TooManyOfAll }
    ensures too_many { AreRefusedFor (codes "--frames=1..10" ∷ codes "--swap=1..10" ∷ codes "--tax=1..10" ∷ codes "--page-rate=1..11" ∷ [])
        TooMany }
    ensures no_machines { AreRefusedFor (codes "--svg" ∷ []) OneMachine }
    ensures one_machine { AreRefusedFor (codes "--svg" ∷ codes "--frames=8" ∷ []) OneMachine }
    ensures same_machine { AreRefusedFor (codes "--svg" ∷ codes "--frames=8,8" ∷ []) NotRising }
    ensures too_many_curves { AreRefusedFor (codes "--svg" ∷ codes "--frames=8,9" ∷ codes "--swap=1..13" ∷ []) TooManyCurves }
    ensures too_many_of_four { AreRefusedFor (codes "--svg" ∷ codes "--frames=8,9" ∷ codes "--rebalance=0..12" ∷ []) TooManyOfFour }

    // Of the command line.
    ensures beside { AreRefused (codes "--svg" ∷ codes "--guests" ∷ []) }
    ensures twice { AreRefused (codes "--tax=1" ∷ codes "--tax=2" ∷ []) }
    ensures more_seeds { AreRefused (codes "--seeds=1001" ∷ []) }
    ensures more_workers { AreRefused (codes "--workers=65" ∷ []) }
    ensures two_files { AreRefused (codes "a.json" ∷ codes "b.json" ∷ []) }
    ensures help { AreRefused (codes "--help" ∷ []) }
    ensures version { AreRefused (codes "--version" ∷ []) }
{}
