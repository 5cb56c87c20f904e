//! One configuration under many machines and policies.
//!
//! [`sweep`] runs the configuration of a text once for each combination of [`Lists`] of values, on threads, and writes a table with
//! a record for each: `specs/Table.antt` says what it is, over `vm_tally`, which tells a run in numbers. A thread has a copy of the
//! configuration, the rooms that guests of its last run left, and one host at a time; inside a run it serves the guests in order, so the table is the same for any number of
//! threads. [`sweep_guests`] does the same runs and writes a record for each guest of each. [`draw_sweep`] does them and draws them:
//! `specs/Drawn.antt` says what of each is drawn.
//!
//! The charts of a sweep show what a host pages, and whom it lets wait, each over the frames of the machine. [`sweep_svg`] draws them, as
//! `draw` of `vm_drawing` draws any charts. Its clause fixes the text to its last byte: `specs/SweepDrawing.antt` says what the charts
//! are, `specs/SweptRuns.antt` which runs make a point, `specs/Medians.antt` what several come to, `specs/CurveNames.antt` how the curves
//! are named, and `specs/Picture.antt` of `vm_drawing` where all in them has its place.
//!
//! Each thread of a round has a tool of its own. A [`Task`] is run with a tool and leaves its result. [`run_round_with`] runs a list of
//! tasks on as many threads as there are tools: a thread draws a job's number from a board of `vm_board`, runs the job with its tool and
//! finishes it, until no number is left. So a tool serves one job after another, and there are no more of them than threads. Only
//! [`Task::run`] makes a result, and it uses up its job: where each job has its result, each was run, once.
//!
//! **Proved**, for every text, lists of values in their ranges and 1 to 64 workers: where [`sweep`] answers `Ok`, the text means a
//! configuration, and what was written is the header and, in the order of the loops, the record of the run of each combination
//! (`done`, over `table_of`, `variants`, `varied`, and `summary_of` of `vm_tally`). The loops are the five settings, the
//! percentage, each list of minimums, each of shares, and innermost the seeds. No worker is in that definition, so the table of
//! many is that of one. A list for a guest that isn't there, or out of its range, is refused, minimums before shares, and nothing
//! was written (`refusal_of`); `Ok` says that none is (`accepted`). Other errors say what was written: nothing where the text is
//! refused, a front where a write failed, whole first rows or nothing where memory was refused (`failed`). [`sweep_guests`] and
//! [`draw_sweep`] do the same runs; an unfinished drawing leaves nothing, or a front where a write failed. [`sweep_svg`] is its
//! definition, whose charts keep apart ([`law_stacked_sweep`], [`law_on_axis`]). A round with 1 to 64 tools gives each job's result
//! in order and loses no tool ([`run_round_with`]: `ok`, `serves`, `tools`); a refused one hands the jobs back.
//!
//! **Only tested**: that all of it succeeds where memory is there; progress; 1 to 64 tools on 256 jobs. **Not claimed**: speed;
//! that a call returns, since it waits for threads; that there are at most as many threads as tools, and hosts as threads.
#![tactic(auto)]

mod charts;
mod drawing;
mod errors;
mod headings;
mod job;
mod lane;
mod law;
mod lists;
mod median;
mod names;
mod offer;
mod outcome;
mod placing;
mod points;
mod progress;
mod reading;
mod refusals;
mod round;
mod rounds;
mod runs;
mod space;
mod sweeping;
mod task;
mod variant;
mod workplace;

pub use charts::sweep_svg;
pub use drawing::draw_sweep;
pub use errors::{GuestRefusal, RefusalCause, SweepError};
pub use law::{law_in_order, law_on_axis, law_runs_of_combinations, law_stacked_sweep};
pub use lists::{GuestList, Lists};
pub use median::OverSeeds;
pub use points::SweptPoint;
pub use progress::Progress;
pub use round::run_round_with;
pub use sweeping::{sweep, sweep_guests};
pub use task::Task;
pub use vm_board::{Jobs, Refused};
