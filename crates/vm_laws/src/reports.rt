// Whole reports of runs, by computation of their definitions.
ghost use Rattle.std.specs.Prelude.{◌≡◌};
ghost use Rattle.vm_sim.specs.Report.{report_of};
ghost use Rattle.vm_tally.specs.Summary.{summary_of};
ghost use Rattle.vm_laws.specs.Numbers.{both_books_numbers, drawn_20_numbers, numbers_told};
ghost use Rattle.vm_laws.specs.Examples.{early_in_flight, early_in_flight_report, early_use_longer, early_use_longer_report, early_use, early_use_report, first_read, first_read_report, five_guests, five_guests_report, freed_reads_zero, freed_reads_zero_report, low_and_back, low_and_back_report, no_epochs, no_epochs_report, no_guests, no_guests_report, overhead_admitted, overhead_admitted_report, overhead_refused, overhead_refused_report, raised_minimum, raised_minimum_report, raw_inflate, raw_inflate_report, reserves_enough, reserves_enough_report, reserves_lowered, reserves_lowered_report, reserves_short, reserves_short_report, restart, restart_report, sizes, sizes_report, slow_decay, slow_decay_report, stall_on_absent, stall_on_absent_report, statistics_driver, statistics_driver_report, statistics_raw, statistics_raw_report, statistics_repeated, statistics_repeated_report, swap_and_stall, swap_and_stall_report, told_first, told_first_report, too_many_raw, too_many_raw_report, two_in_order, two_in_order_report, version_2, version_2_report};
ghost use Rattle.vm_laws.specs.Corners.{both_books, both_books_report, caps_and_demand, caps_and_demand_report, freed_pages_come_back, freed_pages_come_back_report, least_minimum, least_minimum_report, memtune_books, memtune_books_report, minimum_keeps_demand, minimum_keeps_demand_report, next_best, next_best_report, refusals, refusals_report, restarted_shares, restarted_shares_report, soft_to_low, soft_to_low_report, statistics_of_guest, statistics_of_guest_report, woken_1, woken_1_report, woken_2, woken_2_report, woken_3, woken_3_report};
ghost use Rattle.vm_laws.specs.Drawn.{drawn_01, drawn_01_report, drawn_02, drawn_02_report, drawn_03, drawn_03_report, drawn_04, drawn_04_report, drawn_05, drawn_05_report, drawn_06, drawn_06_report, drawn_07, drawn_07_report, drawn_08, drawn_08_report, drawn_09, drawn_09_report, drawn_10, drawn_10_report, drawn_11, drawn_11_report, drawn_12, drawn_12_report, drawn_13, drawn_13_report, drawn_14, drawn_14_report, drawn_15, drawn_15_report, drawn_16, drawn_16_report, drawn_17, drawn_17_report, drawn_18, drawn_18_report, drawn_19, drawn_19_report, drawn_20, drawn_20_report, drawn_21, drawn_21_report, drawn_22, drawn_22_report, drawn_23, drawn_23_report, drawn_24, drawn_24_report, drawn_25, drawn_25_report, drawn_26, drawn_26_report};

/// Worked examples of whole reports.
pub fn law_examples()
    ensures early_in_flight { report_of early_in_flight ≡ early_in_flight_report }
    ensures early_use_longer { report_of early_use_longer ≡ early_use_longer_report }
    ensures early_use { report_of early_use ≡ early_use_report }
    ensures first_read { report_of first_read ≡ first_read_report }
    ensures five_guests { report_of five_guests ≡ five_guests_report }
    ensures freed_reads_zero { report_of freed_reads_zero ≡ freed_reads_zero_report }
    ensures low_and_back { report_of low_and_back ≡ low_and_back_report }
    ensures no_epochs { report_of no_epochs ≡ no_epochs_report }
    ensures no_guests { report_of no_guests ≡ no_guests_report }
    ensures overhead_admitted { report_of overhead_admitted ≡ overhead_admitted_report }
    ensures overhead_refused { report_of overhead_refused ≡ overhead_refused_report }
    ensures raised_minimum { report_of raised_minimum ≡ raised_minimum_report }
    ensures raw_inflate { report_of raw_inflate ≡ raw_inflate_report }
    ensures reserves_enough { report_of reserves_enough ≡ reserves_enough_report }
    ensures reserves_lowered { report_of reserves_lowered ≡ reserves_lowered_report }
    ensures reserves_short { report_of reserves_short ≡ reserves_short_report }
    ensures restart { report_of restart ≡ restart_report }
    ensures sizes { report_of sizes ≡ sizes_report }
    ensures slow_decay { report_of slow_decay ≡ slow_decay_report }
    ensures stall_on_absent { report_of stall_on_absent ≡ stall_on_absent_report }
    ensures statistics_driver { report_of statistics_driver ≡ statistics_driver_report }
    ensures statistics_raw { report_of statistics_raw ≡ statistics_raw_report }
    ensures statistics_repeated { report_of statistics_repeated ≡ statistics_repeated_report }
    ensures swap_and_stall { report_of swap_and_stall ≡ swap_and_stall_report }
    ensures told_first { report_of told_first ≡ told_first_report }
    ensures too_many_raw { report_of too_many_raw ≡ too_many_raw_report }
    ensures two_in_order { report_of two_in_order ≡ two_in_order_report }
    ensures version_2 { report_of version_2 ≡ version_2_report }
{}

/// Whole reports at the corners of the rules: refusals, books, caps, restarts, statistics, and all four states.
pub fn law_corners()
    ensures both_books { report_of both_books ≡ both_books_report }
    ensures caps_and_demand { report_of caps_and_demand ≡ caps_and_demand_report }
    ensures freed_pages_come_back { report_of freed_pages_come_back ≡ freed_pages_come_back_report }
    ensures least_minimum { report_of least_minimum ≡ least_minimum_report }
    ensures memtune_books { report_of memtune_books ≡ memtune_books_report }
    ensures minimum_keeps_demand { report_of minimum_keeps_demand ≡ minimum_keeps_demand_report }
    ensures next_best { report_of next_best ≡ next_best_report }
    ensures refusals { report_of refusals ≡ refusals_report }
    ensures restarted_shares { report_of restarted_shares ≡ restarted_shares_report }
    ensures soft_to_low { report_of soft_to_low ≡ soft_to_low_report }
    ensures statistics_of_guest { report_of statistics_of_guest ≡ statistics_of_guest_report }
    ensures woken_1 { report_of woken_1 ≡ woken_1_report }
    ensures woken_2 { report_of woken_2 ≡ woken_2_report }
    ensures woken_3 { report_of woken_3 ≡ woken_3_report }
{}

/// Whole reports of configurations drawn at random, as an independent program tells them.
pub fn law_drawn()
    ensures drawn_01 { report_of drawn_01 ≡ drawn_01_report }
    ensures drawn_02 { report_of drawn_02 ≡ drawn_02_report }
    ensures drawn_03 { report_of drawn_03 ≡ drawn_03_report }
    ensures drawn_04 { report_of drawn_04 ≡ drawn_04_report }
    ensures drawn_05 { report_of drawn_05 ≡ drawn_05_report }
    ensures drawn_06 { report_of drawn_06 ≡ drawn_06_report }
    ensures drawn_07 { report_of drawn_07 ≡ drawn_07_report }
    ensures drawn_08 { report_of drawn_08 ≡ drawn_08_report }
    ensures drawn_09 { report_of drawn_09 ≡ drawn_09_report }
    ensures drawn_10 { report_of drawn_10 ≡ drawn_10_report }
    ensures drawn_11 { report_of drawn_11 ≡ drawn_11_report }
    ensures drawn_12 { report_of drawn_12 ≡ drawn_12_report }
    ensures drawn_13 { report_of drawn_13 ≡ drawn_13_report }
    ensures drawn_14 { report_of drawn_14 ≡ drawn_14_report }
    ensures drawn_15 { report_of drawn_15 ≡ drawn_15_report }
    ensures drawn_16 { report_of drawn_16 ≡ drawn_16_report }
    ensures drawn_17 { report_of drawn_17 ≡ drawn_17_report }
    ensures drawn_18 { report_of drawn_18 ≡ drawn_18_report }
    ensures drawn_19 { report_of drawn_19 ≡ drawn_19_report }
    ensures drawn_20 { report_of drawn_20 ≡ drawn_20_report }
    ensures drawn_21 { report_of drawn_21 ≡ drawn_21_report }
    ensures drawn_22 { report_of drawn_22 ≡ drawn_22_report }
    ensures drawn_23 { report_of drawn_23 ≡ drawn_23_report }
    ensures drawn_24 { report_of drawn_24 ≡ drawn_24_report }
    ensures drawn_25 { report_of drawn_25 ≡ drawn_25_report }
    ensures drawn_26 { report_of drawn_26 ≡ drawn_26_report }
{}

/// The numbers of two of these runs: with refusals of both books, and with all four states, revocations, paging, grants, a block and a
/// stall.
pub fn law_numbers()
    ensures both_books { numbers_told (summary_of both_books) ≡ both_books_numbers }
    ensures drawn_20 { numbers_told (summary_of drawn_20) ≡ drawn_20_numbers }
{}
