// What holds after some of a log's actions.
ghost use Rattle.std.specs.Prelude.{◌≡◌, ℕ, ◌+◌, ◌≤◌, List, [], ◌∷◌, OnOk, IfOk, length, map};
ghost use Rattle.std.specs.BTreeMap.{IsOrdered, values};
ghost use Rattle.std.specs.Ordering.{nat_cmp};
ghost use Rattle.std.specs.Cmp.Lexicographic.{slice_cmp};
ghost use Rattle.log_actions.specs.declared.actions.Action.{Action};
ghost use Rattle.log_actions.specs.declared.actions.Action.TheVariants as action;

use crate::refusal::{NoState, ReplayRefusal};
use crate::snapshot::{Parts, Snapshot};
use log_actions::{Action, AddFile, MetaData, Protocol, Txn};
use std::alloc::{AllocError, Global};
use std::collections::BTreeMap;
use step_count::Steps;

// The protocol and the metaData that came last, the file that each path has now, and the last txn
// of each application. All are borrowed from the log, or from a state and a commit.
#[derive(Drop)]
pub(crate) struct Held<'a> {
    pub(crate) protocol: Option<&'a Protocol>,
    pub(crate) meta: Option<&'a MetaData>,
    pub(crate) live: BTreeMap<&'a str, &'a AddFile>,
    pub(crate) txns: BTreeMap<&'a str, &'a Txn>,
}

impl<'a> Held<'a> {
    ghost use Rattle.log_replay.specs.Applied.{Applies, AreParts, Holds};
    ghost use Rattle.log_replay.specs.Listing.{bare_of};

    pub(crate) fn new(alloc: Global) -> Self
        ensures { Holds result [] }
    {
        Held {
            protocol: None,
            meta: None,
            live: BTreeMap::new(alloc),
            txns: BTreeMap::new(alloc),
        }
    }

    fn under(alloc: Global, protocol: &'a Protocol, meta: &'a MetaData) -> Self
        ensures { Holds result (action.Protocol protocol.now ∷ action.MetaData meta.now ∷ []) }
    {
        Held {
            protocol: Some(protocol),
            meta: Some(meta),
            live: BTreeMap::new(alloc),
            txns: BTreeMap::new(alloc),
        }
    }

    // What a state holds beside its files.
    pub(crate) fn beside(alloc: Global, base: &'a Snapshot) -> Result<Self, AllocError>
        ensures { IfOk result (λ held. Holds held (bare_of base.now)) }
    {
        let mut held = Held::under(alloc, base.protocol(), base.meta());
        held.put_txns(base.txns())?;
        Ok(held)
    }

    fn put_file(&mut self, file: &'a AddFile) -> Result<(), AllocError>
        ensures { OnOk result (Applies self.old self.new (action.Add file.now ∷ [])) }
    {
        self.live.insert(file.path.as_str(), file)?;
        Ok(())
    }

    fn put_txn(&mut self, txn: &'a Txn) -> Result<(), AllocError>
        ensures { OnOk result (Applies self.old self.new (action.Txn txn.now ∷ [])) }
    {
        self.txns.insert(txn.app.as_str(), txn)?;
        Ok(())
    }

    fn put_txns(&mut self, txns: &'a [Txn]) -> Result<(), AllocError>
        ensures { OnOk result (Applies self.old self.new (map (λ t. action.Txn t) txns.now)) }
    {
        for txn in txns {
            self.put_txn(txn)?;
        }
        Ok(())
    }

    // One action more.
    fn apply(&mut self, action: &'a Action) -> Result<(), AllocError>
        ensures { OnOk result (Applies self.old self.new (action.now ∷ [])) }
    {
        match action {
            Action::Protocol(protocol) => self.protocol = Some(protocol),
            Action::MetaData(meta) => self.meta = Some(meta),
            Action::Add(file) => self.put_file(file)?,
            Action::Remove(file) => {
                self.live.remove(file.path.as_str());
            }
            Action::Txn(txn) => self.put_txn(txn)?,
            Action::Cdc(_) | Action::CommitInfo(_) => {}
        }
        Ok(())
    }

    // A version's actions, one step for each.
    pub(crate) fn apply_all<L>(
        &mut self,
        actions: &'a [Action],
        steps: &mut Steps<L>,
    ) -> Result<(), AllocError>
        ensures applied { OnOk result (Applies self.old self.new actions.now) }
        ensures counted { OnOk result (steps.new ≡ steps.old + length actions.now) }
        ensures no_fewer { steps.old ≤ steps.new }
        ensures no_more { steps.new ≤ steps.old + length actions.now }
    {
        for action in actions {
            steps.tick();
            self.apply(action)?;
        }
        Ok(())
    }

    // The live files, in byte order of path.
    fn files(&self, alloc: Global) -> Result<Vec<&'a AddFile>, AllocError>
        ensures files { IfOk result (λ files. map (λ f. f.now) files.items ≡ map (λ f. f.now) (values self.now.live)) }
        ensures ordered { IsOrdered (λ x y. slice_cmp nat_cmp x.now y.now) self.now.live }
    {
        let mut files = Vec::new(alloc);
        for file in self.live.values() {
            files.push(*file)?;
        }
        Ok(files)
    }

    // The last txns, in byte order of appId.
    fn txns(&self, alloc: Global) -> Result<Vec<&'a Txn>, AllocError>
        ensures txns { IfOk result (λ txns. map (λ t. t.now) txns.items ≡ map (λ t. t.now) (values self.now.txns)) }
        ensures ordered { IsOrdered (λ x y. slice_cmp nat_cmp x.now y.now) self.now.txns }
    {
        let mut txns = Vec::new(alloc);
        for txn in self.txns.values() {
            txns.push(*txn)?;
        }
        Ok(txns)
    }

    // All that is in force.
    pub(crate) fn parts(&self, alloc: Global) -> Result<Parts<'a>, NoState>
        ensures { (actions : List Action) → Holds self.now actions → AreParts actions result }
    {
        let files = self.files(alloc)?;
        let txns = self.txns(alloc)?;
        let Some(protocol) = self.protocol else {
            return Err(ReplayRefusal::NoProtocol.into());
        };
        let Some(meta) = self.meta else {
            return Err(ReplayRefusal::NoMetaData.into());
        };
        Ok(Parts {
            files,
            protocol,
            meta,
            txns,
        })
    }
}
