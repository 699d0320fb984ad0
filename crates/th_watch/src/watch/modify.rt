//! Changes of the newest value by a closure.
ghost use Rattle.std.specs.Prelude.{◌≡◌, IfOk, IfErr, OnOk, OnErr};
ghost use Rattle.std.specs.Fn.{FnOnceTakesAtMut};
ghost use Rattle.th_watch.specs.Edited.{IsEdited, IsModified, IsNotCalled};

use super::Watch;
use crate::refused::EditRefused;
use th_model::TxId;

impl<T: Drop> Watch<T> {
    /// Changes the newest value by a closure, readers or not. Where the closure answers true that
    /// is a publication, else no reader is told.
    ///
    /// The closure is not called, and comes back, where `tx` is no live sender or the last version
    /// was published.
    pub fn send_if_modified<F: FnOnce(&mut T) -> bool>(
        &mut self,
        tx: TxId,
        f: F,
    ) -> Result<bool, EditRefused<F>>
        requires { FnOnceTakesAtMut F.FnOnce f self.old.last }
        ensures edited { IfOk result (λ told. IsEdited F.FnOnce f self.old tx told self.new) }
        ensures refused { IfErr result (λ refused. IsNotCalled f self.old tx refused) }
        ensures same { OnErr result (self.new ≡ self.old) }
    {
        if !self.senders.contains(&tx.0) {
            return Err(EditRefused::NoHandle(f));
        }
        if self.version == u64::MAX {
            return Err(EditRefused::Exhausted(f));
        }
        let told = f(&mut self.last);
        if told {
            self.version += 1;
        }
        Ok(told)
    }

    /// Changes the newest value by a closure, readers or not, and publishes what it leaves.
    ///
    /// The closure is not called, and comes back, where `tx` is no live sender or the last version
    /// was published.
    pub fn send_modify<F: FnOnce(&mut T)>(&mut self, tx: TxId, f: F) -> Result<(), EditRefused<F>>
        requires { FnOnceTakesAtMut F.FnOnce f self.old.last }
        ensures modified { OnOk result (IsModified F.FnOnce f self.old tx self.new) }
        ensures refused { IfErr result (λ refused. IsNotCalled f self.old tx refused) }
        ensures same { OnErr result (self.new ≡ self.old) }
    {
        if !self.senders.contains(&tx.0) {
            return Err(EditRefused::NoHandle(f));
        }
        if self.version == u64::MAX {
            return Err(EditRefused::Exhausted(f));
        }
        f(&mut self.last);
        self.version += 1;
        Ok(())
    }
}
