// What was made of the accesses so far.
ghost use Rattle.std.specs.Prelude.{◌≡◌, ◌⊎◌, ◌≤◌, [], ◌&&◌, IfOk, None, OnOk, drop, false, length, not};
ghost use Rattle.vm_import.specs.Drafts.{with_steps};
ghost use Rattle.vm_import.specs.Progress.{IsShort, limit_of};
ghost use Rattle.vm_import.specs.Settings.{settings_of};
ghost use Rattle.vm_import.specs.Steps.{steps_of};
ghost use Rattle.vm_import.specs.Texts.{head_of};
ghost use Rattle.vm_import.specs.Touched.{effect_of, touched_by};
ghost use Rattle.vm_import.specs.Accesses.{IsAccess};
ghost use Rattle.vm_import.specs.WorkingSets.{Extends, GoesOn, working_set};

use crate::access::{Access, AccessKind};
use crate::draft::Draft;
use crate::limits::{Limit, limit_passed};
use crate::settings::ImportSettings;
use crate::texts::tail_len;
use crate::touch::Effect;
use crate::working_set::WorkingSet;
use std::alloc::{AllocError, Global};

// What was made of the accesses so far: what they touch, and the text of the guest.
#[derive(Drop)]
pub(crate) struct Progress {
    pub(crate) set: WorkingSet,
    pub(crate) draft: Draft,
}

// What an access does to the bytes that it reaches.
#[inline(always)]
fn effect_of(kind: AccessKind) -> Effect
    ensures { result ≡ effect_of kind }
{
    match kind {
        AccessKind::Fetch | AccessKind::Load => Effect::Read,
        AccessKind::Store => Effect::Write,
        AccessKind::Modify => Effect::Modify,
    }
}

// Adds what an access touches.
#[inline(always)]
fn touch(set: &mut WorkingSet, has_code: bool, access: Access) -> Result<(), AllocError>
    requires access { IsAccess access }
    requires few { length set.old.pages ≤ 262144 }
    ensures ok { OnOk result (GoesOn set.old set.new (touched_by has_code access)) }
    ensures pages { Extends set.old.pages set.new.pages }
    ensures kept { Extends set.old.kept set.new.kept }
{
    if access.kind == AccessKind::Fetch && !has_code {
        return Ok(());
    }
    set.access(effect_of(access.kind), access.address, access.size)
}

impl Progress {
    // Nothing was read.
    pub(crate) fn new(alloc: Global, settings: &ImportSettings) -> Result<Self, AllocError>
        ensures set { IfOk result (λ progress. progress.set ≡ working_set [] []) }
        ensures draft { IfOk result (λ progress. progress.draft ≡ record { text = head_of (settings_of settings.now); written = 0; steps = 0 }) }
    {
        Ok(Progress {
            set: WorkingSet::new(alloc),
            draft: Draft::new(alloc, settings)?,
        })
    }

    // Adds the steps of the touches that are kept, from this one on, in the interval of this number. Says which limit the guest
    // passes with them.
    #[inline(never)]
    fn extend(
        &mut self,
        settings: &ImportSettings,
        number: u32,
        from: usize,
    ) -> Result<Option<Limit>, AllocError>
        requires from { from ≤ length self.old.set.kept }
        requires short { IsShort self.old.draft }
        ensures set { self.new.set ≡ self.old.set }
        ensures draft { OnOk result (self.new.draft ≡ with_steps self.old.draft (steps_of number (drop from self.old.set.kept))) }
        ensures limit { IfOk result (λ limit. limit ≡ limit_of (settings_of settings.now) (length self.old.set.pages) self.new.draft) }
    {
        self.draft.push_touches(number, &self.set.kept()[from..])?;
        let steps = self.draft.steps();
        let pages = self.set.page_count() as u64;
        let bytes = self.draft.len() + tail_len(settings, pages, steps);
        Ok(limit_passed(settings, steps, pages, bytes))
    }

    // Adds an access to the interval of this number, and says which limit the guest passes with it.
    #[inline(always)]
    pub(crate) fn add(
        &mut self,
        settings: &ImportSettings,
        number: u32,
        is_first: bool,
        access: Access,
    ) -> Result<Option<Limit>, AllocError>
        requires access { IsAccess access }
        requires few { length self.old.set.pages ≤ 262144 }
        requires short { IsShort self.old.draft }
        ensures set { OnOk result (GoesOn self.old.set self.new.set (touched_by settings.now.has_code access)) }
        ensures kept { Extends self.old.set.kept self.new.set.kept }
        ensures pages { length self.old.set.pages ≤ length self.new.set.pages }
        ensures draft { OnOk result (self.new.draft
            ≡ with_steps self.old.draft (steps_of number (drop (length self.old.set.kept) self.new.set.kept))) }
        ensures limit { IfOk result (λ limit. (limit ≡ limit_of (settings_of settings.now) (length self.new.set.pages) self.new.draft)
            ⊎ ((is_first ≡ false) × (limit ≡ None) × (self.new.set ≡ self.old.set))) }
    {
        let kept = self.set.kept().len();
        let pages = self.set.page_count();
        touch(&mut self.set, settings.has_code, access)?;
        if !is_first && self.set.kept().len() == kept && self.set.page_count() == pages {
            return Ok(None);
        }
        self.extend(settings, number, kept)
    }
}
