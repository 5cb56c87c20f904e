// What lines and logs mean, and what comes of small logs, by examples.
ghost use Rattle.std.specs.Prelude.{None, Some, codes, false, ◌≡◌, [], ◌∷◌, ◌++◌};
ghost use Rattle.vm_import.specs.Examples.{IsRefusedAt, Makes, TouchesNone, cut_by};
ghost use Rattle.vm_import.specs.LogExamples.{IsLineOf, IsPassedOver, IsPassedOverAfter, IsRefused, IsRefusedAfter, ended_lines};
ghost use Rattle.vm_import.specs.Logs.{ended, faulty, log_of, onto};
ghost use Rattle.vm_import.specs.declared.access.AccessKind.TheVariants.{Fetch, Load, Modify, Store};
ghost use Rattle.vm_import.specs.declared.faults.LineFault.TheVariants.{AnotherProcess, NoAddress, NoSize, NotALine, PastTheEnd};
ghost use Rattle.vm_import.specs.declared.limits.Limit.TheVariants.{Steps};

/// Worked examples of logs, with the text of the guest that they make, or the line that is refused.
pub fn law_imports()
    // Accesses of each kind, over a page's end too. An interval has two, and an epoch four steps.
    ensures kinds { Makes (cut_by 2 4)
        (codes "==1== x\nI  04001000,3\n L 1ffeffe7e8,8\n S 04001ffe,4\n M 0421dbb8,8\n\nI  04001003,3\n L 0421dbb8,8\n") 3 None
        (codes "{\"version\":2,\"quantum\":4,\"guests\":[{\"name\":\"guest\",\"trace\":[\"r 0 0 1\",\"r 1 2024 1\",\"i\",\"i\",\"w 0 4094 02\",\"w 2 0 02\",\"r 3 3000 1\",\"w 3 3000 02\",\"r 0 3 1\",\"r 3 3000 1\"],\"size\":4,\"min\":2}],\"frames\":5,\"swap\":2,\"epochs\":3}\n") }

    // Where code isn't wanted, a fetch counts and touches nothing.
    ensures no_code { Makes (record (cut_by 1 3) { has_code = false }) (codes "I  2000,4\n S 1000,1\nI  2000,4\n S 1000,1\n") 4 None
        (codes "{\"version\":2,\"quantum\":3,\"guests\":[{\"name\":\"guest\",\"trace\":[\"i\",\"i\",\"i\",\"w 0 0 02\",\"i\",\"i\",\"i\",\"i\",\"i\",\"w 0 0 04\"],\"size\":1,\"min\":1}],\"frames\":2,\"swap\":0,\"epochs\":4}\n") }
    ensures idle { Makes (record (cut_by 1 3) { has_code = false }) (codes " S 1000,1\nI  2000,4\n") 2 None
        (codes "{\"version\":2,\"quantum\":3,\"guests\":[{\"name\":\"guest\",\"trace\":[\"w 0 0 01\",\"i\",\"i\"],\"size\":1,\"min\":1}],\"frames\":2,\"swap\":0,\"epochs\":1}\n") }

    // A modification reads all of its bytes before it writes them, and what an earlier touch covers is left out.
    ensures covered { Makes (cut_by 5 1024) (codes " M 1fff,2\n L 2000,1\n S 1000,1024\n L ffffffffffffffff,1\n S 0,1024\n") 1 None
        (codes "{\"version\":2,\"quantum\":1024,\"guests\":[{\"name\":\"guest\",\"trace\":[\"r 0 4095 1\",\"r 1 0 1\",\"w 0 4095 01\",\"w 1 0 01\",\"r 2 4095 1\",\"w 3 0 01\"],\"size\":4,\"min\":2}],\"frames\":5,\"swap\":2,\"epochs\":1}\n") }

    // The minimum is what is said, up to the size, and accesses are left out at the start.
    ensures skipped { Makes (record (cut_by 1 2) { name = codes "web"; min = Some 9; skip = 1 }) (codes " S 1000,1\n L 2001,1") 1 None
        (codes "{\"version\":2,\"quantum\":2,\"guests\":[{\"name\":\"web\",\"trace\":[\"r 0 1 1\"],\"size\":1,\"min\":1}],\"frames\":2,\"swap\":0,\"epochs\":1}\n") }

    // The line that passes a limit ends the reading: neither it nor what is behind it is judged.
    ensures ends { Makes (record (cut_by 1 1) { steps = 2 }) (codes " S 1000,1\n S 1000,1\n S 1000,1\nx\n") 2 (Some (Steps 2))
        (codes "{\"version\":2,\"quantum\":1,\"guests\":[{\"name\":\"guest\",\"trace\":[\"w 0 0 01\",\"w 0 0 02\"],\"size\":1,\"min\":1}],\"frames\":2,\"swap\":0,\"epochs\":2}\n") }
    // Idle steps belong to the interval behind them.
    ensures idle_ends { Makes (record (cut_by 1 3) { steps = 2; has_code = false }) (codes " S 1000,1\nI  2000,4\n") 1 (Some (Steps 2))
        (codes "{\"version\":2,\"quantum\":3,\"guests\":[{\"name\":\"guest\",\"trace\":[\"w 0 0 01\"],\"size\":1,\"min\":1}],\"frames\":2,\"swap\":0,\"epochs\":1}\n") }
    // A part of an interval isn't taken.
    ensures part { TouchesNone (record (cut_by 2 1) { steps = 1 }) (codes " S 1000,1\n S 2000,1\n") 0 (Some (Steps 1)) }

    ensures untouched { TouchesNone (record (cut_by 1000000 1024) { has_code = false }) (codes "I  2000,4\n") 1 None }
    ensures empty { TouchesNone (cut_by 1000000 1024) (codes "") 0 None }
    ensures another { IsRefusedAt (cut_by 1000000 1024) (codes "==7== x\n S 1000,1\n==8== x\n") 3 AnotherProcess }
{}

/// Worked examples: lines as lackey's documentation shows them, lines at the limits, lines that are refused, and logs.
pub fn law_lines()
    ensures fetch { IsLineOf (codes "I  0023C790,2") Fetch 0x23C790 2 }
    ensures load { IsLineOf (codes " L BE801950,4") Load 0xBE801950 4 }
    ensures store { IsLineOf (codes " S BE80199C,4") Store 0xBE80199C 4 }
    ensures modify { IsLineOf (codes " M 0025747C,1") Modify 0x25747C 1 }

    // Small letters, the fewest digits and the most.
    ensures small { IsLineOf (codes " S 1fff000748,8") Store 0x1FFF000748 8 }
    ensures short { IsLineOf (codes " L a,0001") Load 10 1 }
    ensures long { IsLineOf (codes " S fffffffffffffc00,1024") Store 0xFFFFFFFFFFFFFC00 1024 }

    ensures empty { IsPassedOver [] }
    ensures mark { IsPassedOver (codes "==11746== Lackey, an example Valgrind tool") }
    ensures other_marks { IsPassedOver (codes "--x") }
    ensures stars { IsPassedOverAfter (codes "7") (codes "**7** and **8**") }
    ensures no_process { IsPassedOverAfter (codes "7") (codes "==71=8==") }
    ensures eleven_digits { IsPassedOverAfter (codes "7") (codes "--12345678901--") }
    ensures another { IsRefusedAfter (codes "7") (codes "--8-- x") AnotherProcess }
    ensures zero { IsRefusedAfter (codes "7") (codes "==07==") AnotherProcess }

    ensures one_space { IsRefused (codes "I 2000,4") NotALine }
    ensures two_spaces { IsRefused (codes "  L 2000,4") NotALine }
    ensures half_mark { IsRefused (codes "=x") NotALine }
    ensures letter { IsRefused (codes " L g,1") NoAddress }
    ensures seventeen { IsRefused (codes " L 11112222333344445,1") NoAddress }
    ensures no_comma { IsRefused (codes " L 1000 1") NoAddress }
    ensures no_digit { IsRefused (codes " L ,1") NoAddress }
    ensures nothing { IsRefused (codes " L 1000,") NoSize }
    ensures none { IsRefused (codes " L 1000,0") NoSize }
    ensures too_large { IsRefused (codes " L 1000,1025") NoSize }
    ensures five_digits { IsRefused (codes " L 1000,00001") NoSize }
    ensures space { IsRefused (codes " L 1000,1 ") NoSize }
    ensures past { IsRefused (codes " L ffffffffffffffff,2") PastTheEnd }

    // Logs: the last line without its end, and the number of the first fault.
    ensures last { log_of (ended_lines (codes "==5== x" ∷ [] ∷ codes "I  10,1" ∷ []) ++ codes " M 20,2")
        ≡ onto (record { address = 16; size = 1; kind = Fetch }) (onto (record { address = 32; size = 2; kind = Modify }) ended) }
    ensures second { log_of (ended_lines (codes "==5== x" ∷ codes "I  10,1" ∷ codes "--6-- y" ∷ codes "I  11,1" ∷ []))
        ≡ onto (record { address = 16; size = 1; kind = Fetch }) (faulty 3 AnotherProcess) }
{}
