//! What every change of a pool keeps: its guests stay good and set up from their configurations, its frames add up, a guest that
//! was served has nothing posted, and the books tell what was promised.
//!
//! Laws over the definitions alone; no call does anything at run time.
//!
//! **Proved**, for each change that a boundary, a command or an epoch makes of a pool, and for lists of moves: each guest stays
//! good and set up from the configuration of its position ([`law_sound`]); frames free, held and in overhead add up
//! ([`law_frames`]); a guest that was served has nothing posted until its next epoch ([`law_served`]); only a start, a stop and
//! another minimum change the books, as admission books them ([`law_books`]); each byte of a guest's memory is that of the last
//! write over what happened to it ([`law_told`]). `specs/Moves.antt` says which lists of takings can be done one by one.
//!
//! For callers: `proofs/SoundPoolLemmas`, `FramesLemmas`, `ServedLemmas`, `BooksLemmas`, `ToldLemmas`, `PlaceLemmas`,
//! `BecomeLemmas`, `StepLemmas`, `TotalLemmas`.
#![tactic(auto)]

mod law;

pub use law::{law_books, law_frames, law_served, law_sound, law_told};
